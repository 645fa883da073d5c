//! Plans that are known.
ghost use Rattle.std.specs.Prelude.{◌<◌, length};

use dci_fields::Format;
use monitor_plan::{Outline, Plan, PlanFault, Watch};
use rrc_settings::Cell;
use std::alloc::Global;
use std::process::Abort;
use std::test::Fail;
use test_drafts::cells::crowded::{CLASH, CROWDED, OVER};
use test_drafts::cells::{BROAD, Draft, FOUR, FOUR_WITH_SOUNDING, FOUR_WITH_TDRA_3, ONE, WIDE};
use test_drafts::large::{LARGE_PLAN, large_cell};

/// A watch: its set, symbol, level, candidate and size, and what its scrambling begins with.
type Line = (u16, u8, u8, u8, u16, u32);

const PLANS: [(&Draft, &[Line]); 8] = [
    (&ONE, &[(1, 0, 8, 0, 39, 500)]),
    (
        &FOUR,
        &[
            (1, 0, 1, 0, 37, 500),
            (2, 0, 1, 0, 37, 500),
            (3, 0, 1, 0, 38, 500),
            (3, 0, 1, 0, 43, 500),
        ],
    ),
    (
        &FOUR_WITH_TDRA_3,
        &[
            (1, 0, 1, 0, 37, 500),
            (2, 0, 1, 0, 39, 500),
            (3, 0, 1, 0, 37, 500),
            (3, 0, 1, 0, 43, 500),
        ],
    ),
    (
        &FOUR_WITH_SOUNDING,
        &[
            (1, 0, 1, 0, 37, 500),
            (2, 0, 1, 0, 37, 500),
            (3, 0, 1, 0, 39, 500),
            (3, 0, 1, 0, 43, 500),
        ],
    ),
    (
        &WIDE,
        &[
            (1, 0, 1, 0, 39, 500),
            (2, 0, 1, 0, 42, 500),
            (3, 0, 1, 0, 39, 500),
            (3, 0, 1, 0, 84, 500),
        ],
    ),
    (
        &CLASH,
        &[
            (1, 0, 8, 0, 39, 500),
            (2, 0, 4, 0, 39, 500),
            (2, 2, 4, 0, 39, 500),
        ],
    ),
    (
        &CROWDED,
        &[
            (1, 0, 4, 0, 41, 500),
            (1, 0, 4, 1, 41, 500),
            (1, 0, 4, 2, 41, 500),
            (1, 0, 4, 3, 41, 500),
            (2, 0, 1, 0, 41, 1_114_119),
            (2, 0, 1, 1, 41, 1_114_119),
            (2, 0, 1, 2, 41, 1_114_119),
            (2, 0, 1, 3, 41, 1_114_119),
            (2, 0, 1, 4, 41, 1_114_119),
            (2, 0, 1, 5, 41, 1_114_119),
            (2, 0, 1, 6, 41, 1_114_119),
            (2, 0, 1, 7, 41, 1_114_119),
        ],
    ),
    (&BROAD, &[(1, 0, 8, 0, 41, 500), (1, 0, 16, 0, 41, 500)]),
];

/// Whether a watch is the known one, but for its RNTI.
fn is_watch(watch: &Watch, line: &Line) -> bool {
    let (set, symbol, level, candidate, size, scramble) = *line;
    watch.set == set
        && watch.symbol == symbol
        && watch.level == level
        && watch.candidate == candidate
        && watch.size == size
        && watch.scramble == scramble
}

/// The plan of a draft's handset in slot 0 of frame 0.
fn plan_of(rt: &impl Abort, alloc: Global, draft: &Draft) -> Result<Plan, Fail> {
    let cell = draft.cell(alloc)?;
    Ok(Plan::of(alloc, &cell, 0, 0, 0).ok().expect(rt, "a plan"))
}

#[test]
fn plans_are_the_known_ones(rt: HostRuntime) -> Result<(), Fail> {
    for (draft, lines) in PLANS {
        let plan = plan_of(&rt, rt.alloc(), draft)?;
        assert_eq!(rt; plan.watches().len(), lines.len());
        for (watch, line) in plan.watches().iter().zip(lines) {
            assert!(rt; watch.rnti == 17 && is_watch(watch, line));
        }
    }
    Ok(())
}

#[test]
fn a_plan_tells_that_common_sets_exceed_a_limit(rt: HostRuntime) -> Result<(), Fail> {
    let cell = OVER.cell(rt.alloc())?;
    let fault = Plan::of(rt.alloc(), &cell, 0, 0, 0).err();
    assert!(rt;
        fault
            == Some(PlanFault::CommonOver {
                candidates: 21,
                cces: 16
            })
    );
    Ok(())
}

#[test]
fn two_levels_begin_at_the_first_cce(rt: HostRuntime) -> Result<(), Fail> {
    let plan = plan_of(&rt, rt.alloc(), &BROAD)?;
    for watch in plan.watches() {
        assert_eq!(rt; watch.regs.len(), 6 * usize::from(watch.level));
        for (place, reg) in watch.regs.as_slice().iter().enumerate() {
            assert_eq!(rt; (reg.symbol, usize::from(reg.block)), (0, place));
        }
        assert_eq!(rt; watch.dmrs_id, 500);
    }
    Ok(())
}

/// Watch i of the large plan: each set has eight watches in each of the 14 symbols.
fn is_large_line(watch: &Watch, i: usize) -> bool {
    let Ok(set) = u16::try_from(i / 112 + 1) else {
        return false;
    };
    let line = (set, (i % 112 / 8) as u8, 1, (i % 8) as u8, 39, 500);
    watch.rnti == 1 && is_watch(watch, &line)
}

#[test]
fn a_large_plan_has_each_watch(rt: HostRuntime) -> Result<(), Fail> {
    let cell = Cell::checked(large_cell(rt.alloc(), 1)?)?;
    assert!(rt; cell.raw().handsets.as_slice().len() == 1);
    let plan = Plan::of(rt.alloc(), &cell, 0, 0, 0)
        .ok()
        .expect(&rt, "a plan");
    assert_eq!(rt; plan.watches().len(), LARGE_PLAN);
    for (i, watch) in plan.watches().iter().enumerate() {
        assert!(rt; is_large_line(watch, i), "watch {i}");
    }
    Ok(())
}

const FORMATS: [Format; 5] = [
    Format::F00,
    Format::F10,
    Format::Order,
    Format::F01,
    Format::F11,
];

/// Whether an outline tells of the watch at a place what it is, and has it there.
fn has_watch(outline: &Outline, at: usize, watch: &Watch) -> bool
    requires { at < length outline.now }
{
    outline.watch(at) == *watch
        && outline.set(at) == watch.set
        && outline.symbol(at) == watch.symbol
        && outline.level(at) == watch.level
        && outline.candidate(at) == watch.candidate
        && FORMATS
            .iter()
            .all(|format| outline.fits(at, *format) == watch.fits(*format))
}

/// Whether the outline of the cell's first handset in slot 0 of frame 0 has each watch of its plan.
fn is_outlined(rt: &impl Abort, alloc: Global, cell: &Cell) -> bool
    requires { 0 < length cell.now.handsets }
{
    let plan = Plan::of(alloc, cell, 0, 0, 0).ok().expect(rt, "a plan");
    let outline = Outline::of(alloc, cell, 0, 0, 0)
        .ok()
        .expect(rt, "an outline");
    if outline.len() != plan.watches().len() {
        return false;
    }
    for (at, watch) in plan.watches().iter().enumerate() {
        if !has_watch(&outline, at, watch) {
            return false;
        }
    }
    true
}

#[test]
fn an_outline_has_the_watches_of_the_plan(rt: HostRuntime) -> Result<(), Fail> {
    for (draft, _) in PLANS {
        let cell = draft.cell(rt.alloc())?;
        assert!(rt; is_outlined(&rt, rt.alloc(), &cell));
    }
    let cell = Cell::checked(large_cell(rt.alloc(), 1)?)?;
    assert!(rt; cell.raw().handsets.as_slice().len() == 1);
    assert!(rt; is_outlined(&rt, rt.alloc(), &cell));
    Ok(())
}

#[test]
fn an_outline_tells_that_common_sets_exceed_a_limit(rt: HostRuntime) -> Result<(), Fail> {
    let cell = OVER.cell(rt.alloc())?;
    let fault = Outline::of(rt.alloc(), &cell, 0, 0, 0).err();
    assert!(rt;
        fault
            == Some(PlanFault::CommonOver {
                candidates: 21,
                cces: 16
            })
    );
    Ok(())
}
