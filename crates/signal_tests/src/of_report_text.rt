//! Texts of many lines.
ghost use Rattle.std.specs.Prelude.{◌<◌, All, length};
ghost use Rattle.monitor_plan.specs.Watch.{IsInside, IsSound};

use crate::of_blind_search::{granted, large_plan};
use blind_search::Searcher;
use cell_placer::Refusal;
use dci_codec::hear;
use grant_file::read_grants;
use monitor_plan::{Plan, Watch};
use report_text::{append_explain, append_head, append_refusal, append_report};
use rrc_settings::Name;
use slot_grid::Grid;
use std::alloc::{AllocError, Global};
use std::test::Fail;
use test_drafts::large::LARGE_PLAN;
use test_drafts::tables::ascending_tables;

/// What is reported of the large plan: three candidates of each set are heard.
fn report(alloc: Global) -> Result<String, AllocError> {
    let mut text = String::from_str(
        alloc,
        "frame 0 slot 0\nhandset alpha watches 1120 heard 30\n",
    )?;
    for set in 1..11u8 {
        for candidate in 0..3u8 {
            write!(text, "set {set} symbol 0 level 1 candidate {candidate}")?;
            text.push_str(" size 39 rnti 0001 1_0 fdra=0 tdra=5 vrb=0 mcs=0 ndi=0")?;
            text.push_str(" rv=0 harq=0 dai=0 tpc=0 pucch=0 timing=0\n")?;
        }
    }
    Ok(text)
}

#[test]
fn a_large_plan_is_reported(rt: HostRuntime) -> Result<(), Fail> {
    let alloc = rt.alloc();
    let tables = ascending_tables(alloc)?;
    let plan = large_plan(&rt, alloc)?;
    let grid = granted(&rt, alloc, &tables, &plan, 51)?;
    let name = Name::of(b"alpha").expect(&rt, "a name");
    let mut searcher = Searcher::prepare(alloc, plan)?;
    searcher.search(&tables, &grid);
    let mut out = Vec::new(alloc);
    append_head(alloc, &grid, &mut out)?;
    append_report(alloc, &name, searcher.plan(), searcher.found(), &mut out)?;
    assert_eq!(rt; out.as_slice(), report(alloc)?.as_bytes());
    Ok(())
}

/// The last watch of a plan.
fn last_of(plan: &Plan) -> &Watch
    requires some { 0 < length plan.now }
    requires inside { All (IsInside 51) plan.now }
    ensures sound { IsSound result.now }
    ensures inside { IsInside 51 result.now }
{
    &plan.watches()[plan.watches().len() - 1]
}

#[test]
fn the_last_watch_is_explained(rt: HostRuntime) -> Result<(), Fail> {
    let alloc = rt.alloc();
    let tables = ascending_tables(alloc)?;
    let plan = large_plan(&rt, alloc)?;
    let grid = Grid::blank(alloc, 0, 0, 0, 51)?;
    let watch = last_of(&plan);
    let answer = hear(&tables, watch, LARGE_PLAN as u32 - 1, &grid);
    let mut out = Vec::new(alloc);
    append_explain(alloc, watch, LARGE_PLAN as u32 - 1, &answer, &mut out)?;
    assert_eq!(rt;
        out.as_slice(),
        b"watch 1119 set 10 symbol 13 level 1 candidate 7 size 39\nsilent: empty at symbol 13 subcarrier 144\n".as_slice()
    );
    Ok(())
}

#[test]
fn many_refusals_are_told(rt: HostRuntime) -> Result<(), Fail> {
    let alloc = rt.alloc();
    let text =
        br#"{"frame":0,"slot":0,"grants":[{"handset":"a","set":1,"level":1,"format":"1_0"}]}"#;
    let list = read_grants(alloc, 0, text)?;
    let [grant] = list.grants.as_slice() else {
        return Err("not one".into());
    };
    let mut out = Vec::new(alloc);
    let mut expected = String::new(alloc);
    for number in 0..4096 {
        append_refusal(alloc, number, grant, &Refusal::UnknownHandset, &mut out)?;
        write!(expected, "grant {number}: unknown handset\n")?;
    }
    assert_eq!(rt; out.as_slice(), expected.as_bytes());
    Ok(())
}
