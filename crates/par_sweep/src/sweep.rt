//! The load, slot after slot: its grants are placed, and all its handsets search.
ghost use Rattle.std.specs.Prelude.{◌≡◌, ◌*◌, ◌<◌, ◌≤◌, All, IfOk, length, map};
ghost use Rattle.std.specs.List.{range_with_len, sum_by};
ghost use Rattle.par_sweep.specs.LoadCell.{load_cell};
ghost use Rattle.par_sweep.specs.Slots.{slot_counts};
ghost use Rattle.par_sweep.specs.Sweep.{found_in, job_at, searched_at, slot_totals, HasFew};

use crate::load::HANDSETS;
use crate::pushing::push_value;
use crate::slots::{Counts, push_slot};
use crate::{Gate, Job, SlotTotals, load_cell, search_all};
use bits_core::NoMemory;
use blind_search::Searcher;
use dci_codec::Codes;
use monitor_plan::{Plan, PlanFault};
use rrc_settings::Cell;
use std::alloc::Global;
use std::thread::Threads;
use table_files::Tables;

/// How many jobs each slot has.
const JOBS: usize = HANDSETS as usize;

/// The totals of the first slots of the load, 1 to 200 of them.
pub fn sweep_of<R: Threads + Sync, G: Gate>(
    rt: &R,
    alloc: Global,
    gate: &G,
    tables: &Tables,
    number: u32,
) -> Result<Vec<SlotTotals>, NoMemory>
    requires least { 1 ≤ number }
    requires most { number ≤ 200 }
    ensures { IfOk result (λ totals. totals.items ≡ map (slot_totals tables.now) (range_with_len 0 number)) }
{
    let cell = load_cell(alloc)?;
    let mut grids = Vec::new(alloc);
    let mut counts = Vec::new(alloc);
    let mut codes = Codes::new();
    for t in 0..number {
        push_slot(alloc, &cell, &mut codes, tables, t, &mut grids, &mut counts)?;
    }
    let mut jobs = jobs_of(alloc, &cell, number as usize)?;
    search_all(rt, gate, tables, grids.as_slice(), &mut jobs);
    totals_of(alloc, tables, counts.as_slice(), jobs.as_slice())
}

/// The jobs of the first slots: one for each handset in each slot, the slots first.
fn jobs_of(alloc: Global, cell: &Cell, slots: usize) -> Result<Vec<Job>, NoMemory>
    requires cell { cell.now ≡ load_cell }
    requires slots { slots ≤ 200 }
    ensures { IfOk result (λ jobs. jobs.items ≡ map job_at (range_with_len 0 (32 * slots))) }
{
    let mut jobs = Vec::new(alloc);
    for number in 0..JOBS * slots {
        push_value(&mut jobs, job_at(alloc, cell, number)?)?;
    }
    Ok(jobs)
}

/// The job with a number: the handset's plan in the slot, and the slot's grid.
fn job_at(alloc: Global, cell: &Cell, number: usize) -> Result<Job, NoMemory>
    requires cell { cell.now ≡ load_cell }
    requires number { number < 6400 }
    ensures { IfOk result (λ job. job ≡ job_at number) }
{
    let t = (number / JOBS) as u16;
    match Plan::of(alloc, cell, number % JOBS, t / 10, t % 10) {
        Ok(plan) => Ok(Job {
            grid: number / JOBS,
            searcher: Searcher::prepare(alloc, plan)?,
        }),
        Err(PlanFault::CommonOver { .. }) => unreachable!(),
        Err(PlanFault::NoMemory) => Err(NoMemory),
    }
}

/// The totals of slots, by what was counted in each and what the jobs found.
fn totals_of(
    alloc: Global,
    tables: &Tables,
    counts: &[Counts],
    jobs: &[Job],
) -> Result<Vec<SlotTotals>, NoMemory>
    requires slots { length counts.now ≤ 200 }
    requires counts { counts.now ≡ map slot_counts (range_with_len 0 (length counts.now)) }
    requires jobs { jobs.now ≡ map (searched_at tables.now) (range_with_len 0 (32 * length counts.now)) }
    ensures { IfOk result (λ totals. totals.items ≡ map (slot_totals tables.now) (range_with_len 0 (length counts.now))) }
{
    let mut totals = Vec::new(alloc);
    for (t, counted) in counts.iter().enumerate() {
        let heard = heard_by(&jobs[t * JOBS..(t + 1) * JOBS]);
        let slot = SlotTotals {
            frame: t as u16 / 10,
            slot: t as u16 % 10,
            placed: counted.placed,
            overlapped: counted.overlapped,
            heard,
        };
        push_value(&mut totals, slot)?;
    }
    Ok(totals)
}

/// How many entries some jobs found.
fn heard_by(jobs: &[Job]) -> u32
    requires few { length jobs.now ≤ 32 }
    requires found { All HasFew jobs.now }
    ensures { result ≡ sum_by found_in jobs.now }
{
    let mut heard = 0;
    for job in jobs {
        heard += job.searcher.found().len() as u32;
    }
    heard
}
