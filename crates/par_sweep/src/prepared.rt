//! Searchers that search grids, in several threads, of which some could not be prepared for want of memory.
ghost use Rattle.std.specs.Prelude.{◌≡◌, ◌+◌, ◌<◌, ◌^◌, All, IfOk, length, map};
ghost use Rattle.std.specs.List.{AllZip};
ghost use Rattle.std.specs.Thread.{IsSync};
ghost use Rattle.dci_codec.specs.KnownCodes.{AreOf};
ghost use Rattle.par_sweep.specs.Prepared.{prepared_searched, CanSearchEntry, IsPrepared};

use crate::jobs::{most_of, search_one};
use crate::pushing::push_value;
use crate::{Gate, Job};
use bits_core::NoMemory;
use blind_search::Searcher;
use dci_codec::Codes;
use monitor_plan::Plan;
use slot_grid::Grid;
use std::alloc::Global;
use std::thread::{Threads, join_mut};
use table_files::Tables;

/// What preparing a search came to.
#[derive(Debug, Drop)]
pub enum Prepared {
    /// The job, ready to be searched.
    Ready(Job),
    /// There was no memory for the job of this grid.
    NoMemory {
        /// The place of the grid in a list of grids.
        grid: usize,
    },
}

/// The entries of plans for the grid of this place, one for each plan in order: a job that has found nothing yet, or want of
/// memory for this job alone.
pub fn prepare_each(alloc: Global, grid: usize, plans: Vec<Plan>) -> Result<Vec<Prepared>, NoMemory>
    ensures { IfOk result (λ entries. AllZip (IsPrepared grid) plans.items entries.items) }
{
    let mut entries = Vec::new(alloc);
    for plan in plans {
        push_value(&mut entries, entry_of(alloc, grid, plan))?;
    }
    Ok(entries)
}

/// The entry of a plan.
fn entry_of(alloc: Global, grid: usize, plan: Plan) -> Prepared
    ensures { IsPrepared grid plan result }
{
    match Searcher::prepare(alloc, plan) {
        Ok(searcher) => Prepared::Ready(Job { grid, searcher }),
        Err(NoMemory) => Prepared::NoMemory { grid },
    }
}

/// Searches the grid of each job that is ready, as `search_all` does: the parts are the same, and each search enters the gate
/// with the place of its entry before it begins. An entry without a job enters no gate and stays. This takes no memory.
pub fn search_each<R: Threads + Sync, G: Gate>(
    rt: &R,
    gate: &G,
    tables: &Tables,
    grids: &[Grid],
    jobs: &mut [Prepared],
)
    requires { All (CanSearchEntry grids.now) jobs.old }
    ensures { jobs.new ≡ map (prepared_searched tables.now grids.now) jobs.old }
{
    search_halves(rt, gate, tables, grids, most_of(jobs.len()), 0, jobs);
}

/// Searches the entries that stand from the place `first` on, by halves of them down to parts of at most `most`.
#[cycle(halves)]
fn search_halves<R: Threads + Sync, G: Gate>(
    rt: &R,
    gate: &G,
    tables: &Tables,
    grids: &[Grid],
    most: usize,
    first: usize,
    jobs: &mut [Prepared],
)
    requires most { 0 < most }
    requires room { first + length jobs.old < 2 ^ 64 }
    requires grids { All (CanSearchEntry grids.now) jobs.old }
    ensures { jobs.new ≡ map (prepared_searched tables.now grids.now) jobs.old }
{
    if jobs.len() <= most {
        search_part(gate, tables, grids, first, jobs);
        return;
    }
    let (front, back) = jobs.split_at_mut(jobs.len() / 2);
    let middle = first + front.len();
    let mut search_front = ||
        requires shared { IsSync R.row × IsSync G.row }
        requires most { 0 < most }
        requires room { first + length front.now < 2 ^ 64 }
        requires grids { All (CanSearchEntry grids.now) front.now }
        ensures { front.exit.now ≡ map (prepared_searched tables.entry.now grids.entry.now) front.entry.now }
    { search_halves(rt, gate, tables, grids, most, first, front) };
    let mut search_back = ||
        requires shared { IsSync R.row × IsSync G.row }
        requires most { 0 < most }
        requires room { middle + length back.now < 2 ^ 64 }
        requires grids { All (CanSearchEntry grids.now) back.now }
        ensures { back.exit.now ≡ map (prepared_searched tables.entry.now grids.entry.now) back.entry.now }
    { search_halves(rt, gate, tables, grids, most, middle, back) };
    join_mut(rt, &mut search_front, &mut search_back);
}

/// Searches the entries of one part in their order. The first of them stands at the place `first` of all.
fn search_part<G: Gate>(
    gate: &G,
    tables: &Tables,
    grids: &[Grid],
    first: usize,
    jobs: &mut [Prepared],
)
    requires room { first + length jobs.old < 2 ^ 64 }
    requires grids { All (CanSearchEntry grids.now) jobs.old }
    ensures { jobs.new ≡ map (prepared_searched tables.now grids.now) jobs.old }
{
    let mut codes = Codes::new();
    for place in 0..jobs.len() {
        search_entry(
            gate,
            &mut codes,
            tables,
            grids,
            first + place,
            &mut jobs[place],
        );
    }
}

/// Searches the entry of this place, if it is ready. `codes` are those that earlier entries of the part needed.
fn search_entry<G: Gate>(
    gate: &G,
    codes: &mut Codes,
    tables: &Tables,
    grids: &[Grid],
    place: usize,
    entry: &mut Prepared,
)
    requires grids { CanSearchEntry grids.now entry.old }
    requires codes { AreOf tables.now codes.old }
    ensures searched { entry.new ≡ prepared_searched tables.now grids.now entry.old }
    ensures codes { AreOf tables.now codes.new }
{
    match entry {
        Prepared::Ready(job) => {
            gate.enter(place);
            search_one(codes, tables, grids, job);
        }
        Prepared::NoMemory { .. } => {}
    }
}
