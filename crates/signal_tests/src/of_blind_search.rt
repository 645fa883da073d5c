//! The search of a plan of many watches.
ghost use Rattle.std.specs.Prelude.{◌≡◌, ℕ, ◌<◌, ◌≤◌, All, IfOk, length};
ghost use Rattle.monitor_plan.specs.Watch.{IsInside, IsSound};

use blind_search::Searcher;
use dci_codec::spell;
use dci_fields::{FieldName, Format, Given};
use monitor_plan::{Plan, Watch};
use rrc_settings::Cell;
use slot_grid::Grid;
use std::alloc::Global;
use std::process::Abort;
use std::test::Fail;
use table_files::Tables;
use test_drafts::large::{LARGE_PLAN, large_cell};
use test_drafts::tables::ascending_tables;

/// The plan of a handset of the large cell.
pub fn large_plan(rt: &impl Abort, alloc: Global) -> Result<Plan, Fail>
    ensures some { IfOk result (λ plan. 0 < length plan) }
    ensures inside { IfOk result (λ plan. All (IsInside 51) plan) }
{
    let cell = Cell::checked(large_cell(alloc, 1)?)?;
    let settings = cell.raw();
    assert!(rt;
        settings.handsets.as_slice().len() == 1 && settings.mu == 0 && settings.blocks == 51
    );
    let plan = Plan::of(alloc, &cell, 0, 0, 0).ok().expect(rt, "a plan");
    assert_eq!(rt; plan.watches().len(), LARGE_PLAN);
    Ok(plan)
}

/// The first watch of a plan.
fn first_of(plan: &Plan) -> &Watch
    requires some { 0 < length plan.now }
    ensures sound { IsSound result.now }
    ensures inside { (blocks : ℕ) → All (IsInside blocks) plan.now → IsInside blocks result.now }
{
    &plan.watches()[0]
}

/// A grid of the first slot at 15 kHz, of so many blocks, with a grant at the first watch of a plan.
pub fn granted(
    rt: &impl Abort,
    alloc: Global,
    tables: &Tables,
    plan: &Plan,
    blocks: u16,
) -> Result<Grid, Fail>
    requires some { 0 < length plan.now }
    requires least { 6 ≤ blocks }
    requires most { blocks ≤ 275 }
    requires inside { All (IsInside blocks) plan.now }
    ensures { IfOk result (λ grid. grid.blocks ≡ blocks) }
{
    let watch = first_of(plan);
    assert!(rt; watch.fits(Format::F10));
    let given = [Given {
        name: Some(FieldName::Tdra),
        value: 5,
    }];
    let mut grid = Grid::blank(alloc, 0, 0, 0, blocks)?;
    let refused = spell(tables, watch, Format::F10, &given, &mut grid).err();
    assert_eq!(rt; refused, None);
    assert_eq!(rt; grid.blocks(), blocks);
    Ok(grid)
}

/// Three candidates of each of the ten sets are on the first CCE in symbol 0, and hear what is granted there.
#[test]
fn a_large_plan_is_searched(rt: HostRuntime) -> Result<(), Fail> {
    let tables = ascending_tables(rt.alloc())?;
    let plan = large_plan(&rt, rt.alloc())?;
    let grid = granted(&rt, rt.alloc(), &tables, &plan, 51)?;
    let mut searcher = Searcher::prepare(rt.alloc(), plan)?;
    let heard = searcher.search(&tables, &grid);
    assert_eq!(rt; heard.len(), 30);
    for (i, entry) in heard.iter().enumerate() {
        assert_eq!(rt; entry.format, Format::F10);
        assert_eq!(rt; entry.watch as usize, i / 3 * 112 + i % 3);
    }
    Ok(())
}
