//! Searches in several threads, and the whole summary of the first slots.
ghost use Rattle.std.specs.Prelude.{◌≡◌, All, IfOk};
ghost use Rattle.monitor_plan.specs.Watch.{IsInside};
ghost use Rattle.par_sweep.specs.Jobs.{CanSearch};
ghost use Rattle.par_sweep.specs.Prepared.{CanSearchEntry};

use crate::meeting::Meeting;
use crate::of_blind_search::granted;
use crate::of_dci_codec;
use blind_search::Searcher;
use dci_fields::Format;
use monitor_plan::Plan;
use par_sweep::{
    Gate, Job, OpenGate, Prepared, SlotTotals, append_summary, load_cell, prepare_each, search_all,
    search_each, sweep_of,
};
use rrc_settings::Cell;
use slot_grid::Grid;
use std::alloc::Global;
use std::process::Abort;
use std::sync::atomic::{AtomicUsize, Ordering};
use std::test::Fail;
use std::thread::Threads;
use table_files::Tables;
use test_drafts::tables::ascending_tables;

/// The plan of a handset of the load in its first slot.
fn plan(rt: &impl Abort, alloc: Global, cell: &Cell, handset: usize) -> Result<Plan, Fail>
    ensures { IfOk result (λ plan. All (IsInside cell.now.blocks) plan) }
{
    let settings = cell.raw();
    assert!(rt; handset < settings.handsets.as_slice().len() && settings.mu == 0);
    Ok(Plan::of(alloc, cell, handset, 0, 0).ok().ok_or("no plan")?)
}

/// The grid of the load's first slot with one grant, at the first watch of a handset.
fn granted_to(
    rt: &impl Abort,
    alloc: Global,
    cell: &Cell,
    tables: &Tables,
    handset: usize,
) -> Result<Grid, Fail> {
    let plan = plan(rt, alloc, cell, handset)?;
    assert!(rt; !plan.watches().is_empty() && cell.raw().blocks == 273);
    granted(rt, alloc, tables, &plan, 273)
}

/// The job of a handset in the first slot of the load, on one of some grids.
fn job(
    rt: &impl Abort,
    alloc: Global,
    cell: &Cell,
    grids: &[Grid],
    handset: usize,
) -> Result<Job, Fail>
    ensures { IfOk result (λ job. CanSearch grids.now job) }
{
    assert!(rt; !grids.is_empty());
    let grid = handset % grids.len();
    assert_eq!(rt; grids[grid].blocks(), cell.raw().blocks);
    let plan = plan(rt, alloc, cell, handset)?;
    Ok(Job {
        grid,
        searcher: Searcher::prepare(alloc, plan)?,
    })
}

/// The jobs of the first handsets.
fn jobs(
    rt: &impl Abort,
    alloc: Global,
    cell: &Cell,
    grids: &[Grid],
    count: usize,
) -> Result<Vec<Job>, Fail>
    ensures { IfOk result (λ jobs. All (CanSearch grids.now) jobs.items) }
{
    let mut jobs = Vec::new(alloc);
    for handset in 0..count {
        jobs.push(job(rt, alloc, cell, grids, handset)?)?;
    }
    Ok(jobs)
}

/// The cell of the load, its tables, and three grids, each with a grant to one handset.
fn first_slot(rt: &impl Abort, alloc: Global) -> Result<(Cell, Tables, [Grid; 3]), Fail> {
    let cell = load_cell(alloc).ok().ok_or("no memory")?;
    let tables = ascending_tables(alloc)?;
    let grids = [
        granted_to(rt, alloc, &cell, &tables, 0)?,
        granted_to(rt, alloc, &cell, &tables, 1)?,
        granted_to(rt, alloc, &cell, &tables, 5)?,
    ];
    Ok((cell, tables, grids))
}

/// Several searches at once find what each finds alone. No search at all finds nothing.
#[test]
fn searches_at_once_find_what_each_finds_alone(rt: HostRuntime) -> Result<(), Fail> {
    let alloc = rt.alloc();
    let (cell, tables, grids) = first_slot(&rt, alloc)?;
    for count in [0, 1, 2, 3, 9] {
        let mut jobs = jobs(&rt, alloc, &cell, &grids, count)?;
        search_all(&rt, &OpenGate, &tables, &grids, &mut jobs);
        assert_eq!(rt; jobs.len(), count);
        for (handset, together) in jobs.as_slice().iter().enumerate() {
            let mut alone = job(&rt, alloc, &cell, &grids, handset)?;
            let found = alone.searcher.search(&tables, &grids[alone.grid]);
            assert_eq!(rt; together.searcher.found(), found);
            let hears = matches!(handset, 0 | 1 | 5);
            assert_eq!(rt; found.len(), usize::from(hears));
        }
    }
    Ok(())
}

/// Two searches run at the same time: each sees at the gate that the other came.
#[test]
fn gate_meets(rt: HostRuntime) -> Result<(), Fail> {
    let alloc = rt.alloc();
    let (cell, tables, grids) = first_slot(&rt, alloc)?;
    let mut jobs = jobs(&rt, alloc, &cell, &grids, 2)?;
    let gate = Meeting::of([0, 1]);
    search_all(&rt, &gate, &tables, &grids, &mut jobs);
    assert!(rt; gate.took_place());
    let gate = Meeting::of([0, 16]);
    let totals = sweep_of(&rt, alloc, &gate, &tables, 1);
    assert!(rt; totals.is_ok() && gate.took_place());
    Ok(())
}

/// A gate that adds up the places of the jobs that enter it.
#[derive(Drop)]
struct Adding {
    sum: AtomicUsize,
}

impl Gate for Adding {
    fn enter(&self, job: usize) {
        self.sum.fetch_add(job, Ordering::SeqCst);
    }
}

/// A gate that counts how often a job of each place enters it, for the places 0 to 7.
#[derive(Drop)]
struct Noting {
    counts: AtomicUsize,
}

impl Noting {
    /// A gate that no job has entered.
    fn new() -> Noting {
        Noting {
            counts: AtomicUsize::new(0),
        }
    }

    /// The counts, one a byte, that of place 0 the lowest.
    fn counts(&self) -> usize {
        self.counts.load(Ordering::SeqCst)
    }
}

impl Gate for Noting {
    fn enter(&self, job: usize) {
        self.counts
            .fetch_add(1 << (8 * (job % 8)), Ordering::SeqCst);
    }
}

/// So many plans of one handset in a cell of 51 blocks, prepared for the first of some grids.
fn entries(
    rt: &impl Abort,
    alloc: Global,
    grids: &[Grid],
    count: usize,
) -> Result<Vec<Prepared>, Fail>
    ensures { IfOk result (λ entries. All (CanSearchEntry grids.now) entries.items) }
{
    assert!(rt; !grids.is_empty());
    let blocks = grids[0].blocks();
    assert!(rt; blocks == 51);
    let mut plans = Vec::new(alloc);
    for _ in 0..count {
        plans.push(of_dci_codec::plan_for(rt, alloc, 17)?)?;
    }
    Ok(prepare_each(alloc, 0, plans)?)
}

/// Two plans of the handset to which the grant of a grid is addressed: both are ready, and each search hears it.
#[test]
fn what_is_prepared_is_searched(rt: HostRuntime) -> Result<(), Fail> {
    let alloc = rt.alloc();
    let tables = ascending_tables(alloc)?;
    let grids = [of_dci_codec::granted(&rt, alloc, &tables, &[])?];
    let mut entries = entries(&rt, alloc, &grids, 2)?;
    let gate = Noting::new();
    search_each(&rt, &gate, &tables, &grids, &mut entries);
    assert_eq!(rt; entries.len(), 2);
    for entry in entries.as_slice() {
        let Prepared::Ready(job) = entry else {
            return Err("no memory")?;
        };
        let found = job.searcher.found();
        assert!(rt; job.grid == 0 && found.len() == 1);
        assert_eq!(rt; found[0].format, Format::F10);
    }
    assert_eq!(rt; gate.counts(), 0x0101);
    Ok(())
}

/// Two jobs of the load's first slot with an entry between them for which there was no memory.
fn with_a_gap(
    rt: &impl Abort,
    alloc: Global,
    cell: &Cell,
    grids: &[Grid],
) -> Result<Vec<Prepared>, Fail>
    ensures { IfOk result (λ entries. All (CanSearchEntry grids.now) entries.items) }
{
    let mut entries = Vec::new(alloc);
    entries.push(Prepared::Ready(job(rt, alloc, cell, grids, 0)?))?;
    entries.push(Prepared::NoMemory { grid: 7 })?;
    entries.push(Prepared::Ready(job(rt, alloc, cell, grids, 5)?))?;
    Ok(entries)
}

/// How many entries the job of an entry found, where there is a job.
fn found_by(entry: &Prepared) -> Option<usize> {
    match entry {
        Prepared::Ready(job) => Some(job.searcher.found().len()),
        Prepared::NoMemory { .. } => None,
    }
}

/// An entry without a job stays, enters no gate, and takes nothing from the others.
#[test]
fn an_entry_without_a_job_stays(rt: HostRuntime) -> Result<(), Fail> {
    let alloc = rt.alloc();
    let (cell, tables, grids) = first_slot(&rt, alloc)?;
    let mut entries = with_a_gap(&rt, alloc, &cell, &grids)?;
    let gate = Noting::new();
    search_each(&rt, &gate, &tables, &grids, &mut entries);
    assert!(rt; entries.len() == 3);
    assert_eq!(rt; found_by(&entries[0]), Some(1));
    assert!(rt; matches!(&entries[1], Prepared::NoMemory { grid: 7 }));
    assert_eq!(rt; found_by(&entries[2]), Some(1));
    assert_eq!(rt; gate.counts(), 0x01_0001);
    Ok(())
}

/// Where there is no entry, none is searched.
#[test]
fn no_entry_is_searched(rt: HostRuntime) -> Result<(), Fail> {
    let alloc = rt.alloc();
    let tables = ascending_tables(alloc)?;
    let grids = [of_dci_codec::granted(&rt, alloc, &tables, &[])?];
    let mut entries = entries(&rt, alloc, &grids, 0)?;
    let gate = Noting::new();
    search_each(&rt, &gate, &tables, &grids, &mut entries);
    assert!(rt; entries.is_empty() && gate.counts() == 0);
    Ok(())
}

/// What is written of the first two slots.
const SUMMARY: &str =
    "frame 0 slot 0 placed 45 overlapped 19 heard 45\nframe 0 slot 1 placed 45 overlapped 19 heard 45\nslots 2 placed 90 overlapped 38 heard 90\n";

#[test]
fn the_first_slots_are_swept(rt: HostRuntime) -> Result<(), Fail> {
    let alloc = rt.alloc();
    let gate = Adding {
        sum: AtomicUsize::new(0),
    };
    let totals = sweep_of(&rt, alloc, &gate, &ascending_tables(alloc)?, 2)
        .ok()
        .ok_or("no memory")?;
    let mut out = Vec::new(alloc);
    append_summary(alloc, totals.as_slice(), &mut out)
        .ok()
        .ok_or("no memory")?;
    assert_eq!(rt; out.as_slice(), SUMMARY.as_bytes());
    assert_eq!(rt; gate.sum.load(Ordering::SeqCst), 63 * 64 / 2);
    Ok(())
}

#[test]
fn a_slot_is_swept(rt: HostRuntime) -> Result<(), Fail> {
    let alloc = rt.alloc();
    let totals = sweep_of(&rt, alloc, &OpenGate, &ascending_tables(alloc)?, 1)
        .ok()
        .ok_or("no memory")?;
    let wanted = [SlotTotals {
        frame: 0,
        slot: 0,
        placed: 45,
        overlapped: 19,
        heard: 45,
    }];
    assert_eq!(rt; totals.as_slice(), wanted.as_slice());
    Ok(())
}

#[test]
fn each_handset_has_two_watches(rt: HostRuntime) -> Result<(), Fail> {
    let alloc = rt.alloc();
    let cell = load_cell(alloc).ok().ok_or("no memory")?;
    assert!(rt; cell.raw().handsets.as_slice().len() == 32 && cell.raw().mu == 0);
    for handset in 0..32 {
        let plan = Plan::of(alloc, &cell, handset, 19, 9)
            .ok()
            .ok_or("no plan")?;
        assert_eq!(rt; plan.watches().len(), 2);
        for watch in plan.watches() {
            assert_eq!(rt; watch.size, 44);
        }
    }
    Ok(())
}

#[test]
fn a_long_summary(rt: HostRuntime) -> Result<(), Fail> {
    let alloc = rt.alloc();
    let mut totals = Vec::new(alloc);
    let mut expected = String::new(alloc);
    for slot in 0..2000u16 {
        totals.push(SlotTotals {
            frame: slot / 10,
            slot: slot % 10,
            placed: 7,
            overlapped: 57,
            heard: 11,
        })?;
        write!(expected, "frame {} slot {}", slot / 10, slot % 10)?;
        expected.push_str(" placed 7 overlapped 57 heard 11\n")?;
    }
    expected.push_str("slots 2000 placed 14000 overlapped 114000 heard 22000\n")?;
    let mut out = Vec::new(alloc);
    assert!(rt; totals.len() == 2000);
    append_summary(alloc, totals.as_slice(), &mut out)?;
    assert_eq!(rt; out.as_slice(), expected.as_bytes());
    Ok(())
}
