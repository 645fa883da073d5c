//! Searchers that search grids, in several threads.
ghost use Rattle.std.specs.Prelude.{◌≡◌, ◌+◌, ◌<◌, ◌^◌, All, length, map};
ghost use Rattle.std.specs.Thread.{IsSync};
ghost use Rattle.dci_codec.specs.KnownCodes.{AreOf};
ghost use Rattle.par_sweep.specs.Jobs.{job_searched, CanSearch};

use crate::Gate;
use blind_search::Searcher;
use dci_codec::Codes;
use slot_grid::Grid;
use std::thread::{Threads, join_mut};
use table_files::Tables;

/// A searcher, and the grid that it is to search.
#[derive(Debug, Drop)]
pub struct Job {
    /// The place of the grid in a list of grids.
    pub grid: usize,
    /// The searcher.
    pub searcher: Searcher,
}

/// A part has at most one of so many parts of all jobs, rounded up.
const PARTS: usize = 8;

/// Searches the grid of each job: the job's searcher has then found the report of its plan on that grid. Each search enters
/// the gate with the place of its job before it begins. The jobs are halved into parts of at most one eighth of them, rounded
/// up; the parts are searched at once where there are threads for it, the jobs of each part in order. This takes no memory.
pub fn search_all<R: Threads + Sync, G: Gate>(
    rt: &R,
    gate: &G,
    tables: &Tables,
    grids: &[Grid],
    jobs: &mut [Job],
)
    requires { All (CanSearch grids.now) jobs.old }
    ensures { jobs.new ≡ map (job_searched tables.now grids.now) jobs.old }
{
    search_halves(rt, gate, tables, grids, most_of(jobs.len()), 0, jobs);
}

/// How many jobs a part has at most, where there are so many in all.
pub(crate) fn most_of(count: usize) -> usize
    ensures { 0 < result }
{
    count.div_ceil(PARTS).max(1)
}

/// Searches the grids of the jobs that stand from the place `first` on, by halves of them down to parts of at most `most`.
#[cycle(halves)]
fn search_halves<R: Threads + Sync, G: Gate>(
    rt: &R,
    gate: &G,
    tables: &Tables,
    grids: &[Grid],
    most: usize,
    first: usize,
    jobs: &mut [Job],
)
    requires most { 0 < most }
    requires room { first + length jobs.old < 2 ^ 64 }
    requires grids { All (CanSearch grids.now) jobs.old }
    ensures { jobs.new ≡ map (job_searched tables.now grids.now) jobs.old }
{
    if jobs.len() <= most {
        search_part(gate, tables, grids, first, jobs);
        return;
    }
    let (front, back) = jobs.split_at_mut(jobs.len() / 2);
    let middle = first + front.len();
    let mut search_front = ||
        requires shared { IsSync R.row × IsSync G.row }
        requires most { 0 < most }
        requires room { first + length front.now < 2 ^ 64 }
        requires grids { All (CanSearch grids.now) front.now }
        ensures { front.exit.now ≡ map (job_searched tables.entry.now grids.entry.now) front.entry.now }
    { search_halves(rt, gate, tables, grids, most, first, front) };
    let mut search_back = ||
        requires shared { IsSync R.row × IsSync G.row }
        requires most { 0 < most }
        requires room { middle + length back.now < 2 ^ 64 }
        requires grids { All (CanSearch grids.now) back.now }
        ensures { back.exit.now ≡ map (job_searched tables.entry.now grids.entry.now) back.entry.now }
    { search_halves(rt, gate, tables, grids, most, middle, back) };
    join_mut(rt, &mut search_front, &mut search_back);
}

/// Searches the grids of the jobs of one part in their order. The first of them stands at the place `first` of all jobs.
fn search_part<G: Gate>(gate: &G, tables: &Tables, grids: &[Grid], first: usize, jobs: &mut [Job])
    requires room { first + length jobs.old < 2 ^ 64 }
    requires grids { All (CanSearch grids.now) jobs.old }
    ensures { jobs.new ≡ map (job_searched tables.now grids.now) jobs.old }
{
    let mut codes = Codes::new();
    for place in 0..jobs.len() {
        gate.enter(first + place);
        search_one(&mut codes, tables, grids, &mut jobs[place]);
    }
}

/// Searches the grid of a job. `codes` are those that earlier jobs of the part needed.
pub(crate) fn search_one(codes: &mut Codes, tables: &Tables, grids: &[Grid], job: &mut Job)
    requires grids { CanSearch grids.now job.old }
    requires codes { AreOf tables.now codes.old }
    ensures searched { job.new ≡ job_searched tables.now grids.now job.old }
    ensures codes { AreOf tables.now codes.new }
{
    job.searcher.search_with(codes, tables, &grids[job.grid]);
}
