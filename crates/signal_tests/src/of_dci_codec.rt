//! What is heard at a watch of a grid on which `spell` wrote a grant, and what is told where that grid is damaged. What is
//! expected comes from outside; the grids do not.
ghost use Rattle.std.specs.Prelude.{◌≡◌, ◌<◌, All, IfOk, length};
ghost use Rattle.monitor_plan.specs.Watch.{IsInside, IsSound};

use crate::of_dmrs_qpsk::eight_cces;
use bits_core::{Coded, Payload};
use crc_mask::attach;
use dci_codec::{Heard, Silence, hear, spell};
use dci_fields::{FieldName, FieldValue, Format, Given};
use dmrs_qpsk::{BadPlace, Flaw, put_bits};
use gold_scrambler::Gold;
use monitor_plan::{Plan, Watch};
use polar_chain::Code;
use polar_sets::enough;
use slot_grid::Grid;
use slot_grid::Point::{self, Empty, P00, P01, P10, P11};
use std::alloc::Global;
use std::process::Abort;
use std::test::Fail;
use table_files::Tables;
use test_drafts::cells::{Draft, ONE};
use test_drafts::tables::ascending_tables;

/// The plan of a handset of this RNTI in a cell of 51 blocks, which has one watch at level 8.
pub fn plan_for(rt: &impl Abort, alloc: Global, rnti: u16) -> Result<Plan, Fail>
    ensures some { IfOk result (λ plan. 0 < length plan) }
    ensures inside { IfOk result (λ plan. All (IsInside 51) plan) }
{
    let cell = Draft { rnti, ..ONE }.cell(alloc)?;
    let settings = cell.raw();
    assert!(rt;
        settings.handsets.as_slice().len() == 1 && settings.mu == 1 && settings.blocks == 51
    );
    let plan = Plan::of(alloc, &cell, 0, 0, 0).ok().expect(rt, "a plan");
    assert_eq!(rt; plan.watches().len(), 1);
    Ok(plan)
}

/// The one watch of that plan.
fn watch_of(plan: &Plan) -> &Watch
    requires some { 0 < length plan.now }
    requires inside { All (IsInside 51) plan.now }
    ensures sound { IsSound result.now }
    ensures inside { IsInside 51 result.now }
{
    &plan.watches()[0]
}

/// The fields that the grant gives.
const GIVEN: [(FieldName, u64); 8] = [
    (FieldName::Fdra, 101),
    (FieldName::Tdra, 2),
    (FieldName::Mcs, 10),
    (FieldName::Ndi, 1),
    (FieldName::Harq, 3),
    (FieldName::Tpc, 1),
    (FieldName::Pucch, 5),
    (FieldName::Timing, 3),
];

/// What the report of its grid says.
const SHOWN: [(FieldName, u32); 11] = [
    (FieldName::Fdra, 101),
    (FieldName::Tdra, 2),
    (FieldName::Vrb, 0),
    (FieldName::Mcs, 10),
    (FieldName::Ndi, 1),
    (FieldName::Rv, 0),
    (FieldName::Harq, 3),
    (FieldName::Dai, 0),
    (FieldName::Tpc, 1),
    (FieldName::Pucch, 5),
    (FieldName::Timing, 3),
];

/// A damage of a grid: a subcarrier of symbol 0, and whether its point is taken away; else its first bit is changed.
type Damage = (u16, bool);

/// Where a grid is bad: a reference point at subcarrier 1, and no point at subcarrier 0.
const REFERENCE: Silence = Silence::Spot(BadPlace {
    symbol: 0,
    subcarrier: 1,
    flaw: Flaw::Reference,
});

const EMPTY: Silence = Silence::Spot(BadPlace {
    symbol: 0,
    subcarrier: 0,
    flaw: Flaw::Empty,
});

/// Damages of the grant's grid, the RNTI for which it is then heard, and what is told.
type Case = (&'static [Damage], u16, Silence);

const CASES: [Case; 7] = [
    (&[(400, false)], 17, Silence::Repeat { at: 600 }),
    (&[(0, false)], 17, Silence::Repeat { at: 512 }),
    (&[(1, false)], 17, REFERENCE),
    (&[(0, true)], 17, EMPTY),
    (&[(5, true), (0, true)], 17, EMPTY),
    (&[(0, false), (342, false)], 17, Silence::Code),
    (&[], 18, Silence::Crc),
];

/// The point of two bits, the first of them changed.
fn flipped(point: Point) -> Point {
    match point {
        Empty => Empty,
        P00 => P10,
        P01 => P11,
        P10 => P00,
        P11 => P01,
    }
}

/// The grid of 51 blocks on which the grant is spelled for RNTI 17, with damages.
pub fn granted(
    rt: &impl Abort,
    alloc: Global,
    tables: &Tables,
    damages: &[Damage],
) -> Result<Grid, Fail>
    ensures { IfOk result (λ grid. grid.blocks ≡ 51) }
{
    let plan = plan_for(rt, alloc, 17)?;
    let watch = watch_of(&plan);
    assert!(rt; watch.fits(Format::F10));
    let given = GIVEN.map(|(name, value)| Given {
        name: Some(name),
        value,
    });
    let mut grid = Grid::blank(alloc, 1, 0, 0, 51)?;
    let refused = spell(tables, watch, Format::F10, &given, &mut grid).err();
    assert_eq!(rt; refused, None);
    for (subcarrier, empty) in damages {
        assert!(rt; *subcarrier < 12 * grid.blocks());
        let old = grid.get(0, *subcarrier);
        let new = if *empty { Empty } else { flipped(old) };
        grid.put(0, *subcarrier, new);
    }
    assert_eq!(rt; grid.blocks(), 51);
    Ok(grid)
}

/// What is heard on a grid of 51 blocks for an RNTI.
fn heard(
    rt: &impl Abort,
    alloc: Global,
    tables: &Tables,
    rnti: u16,
    grid: &Grid,
) -> Result<Result<Heard, Silence>, Fail>
    requires { grid.now.blocks ≡ 51 }
{
    let plan = plan_for(rt, alloc, rnti)?;
    Ok(hear(tables, watch_of(&plan), 7, grid))
}

#[test]
fn a_grant_is_heard(rt: HostRuntime) -> Result<(), Fail> {
    let tables = ascending_tables(rt.alloc())?;
    let grid = granted(&rt, rt.alloc(), &tables, &[])?;
    let heard = heard(&rt, rt.alloc(), &tables, 17, &grid)?;
    let heard = heard.ok().expect(&rt, "the grant");
    assert_eq!(rt; heard.watch, 7);
    assert_eq!(rt; heard.format, Format::F10);
    let shown = SHOWN.map(|(name, value)| FieldValue { name, value });
    assert!(rt; heard.values.entries() == shown.as_slice());
    Ok(())
}

#[test]
fn damages_are_told(rt: HostRuntime) -> Result<(), Fail> {
    let tables = ascending_tables(rt.alloc())?;
    for (damages, rnti, silence) in CASES {
        let grid = granted(&rt, rt.alloc(), &tables, damages)?;
        let told = heard(&rt, rt.alloc(), &tables, rnti, &grid)?.err();
        assert_eq!(rt; told, Some(silence));
    }
    Ok(())
}

/// The fields of format 0_0 in 31 bits: the identifier, fdra, tdra, hopping, mcs, ndi, rv, harq and tpc.
const UPLINK: u32 = 0b0_11111111111_1001_1_10001_1_10_1011_11;

/// The bits, each added to the bit of its place in the sequence of the cell 500.
fn scrambled(mut sum: Coded) -> Coded {
    let mut sequence = Coded::new();
    let mut gold = Gold::new(500);
    gold.fill(&mut sequence, 864);
    for at in 0..864 {
        if at < sum.len() && at < sequence.len() {
            sum.set(at, sum.get(at) != sequence.get(at));
        }
    }
    sum
}

#[test]
fn padding_of_ones_is_of_no_format(rt: HostRuntime) -> Result<(), Fail> {
    let tables = ascending_tables(rt.alloc())?;
    let mut payload = Payload::new();
    payload.append_number(31, UPLINK);
    payload.append_number(8, 1);
    assert!(rt; payload.len() == 39 && enough(63, 864));
    let block = attach(&payload, 17);
    assert!(rt; block.len() == 63);
    let code = Code::of(&tables, 63, 864);
    let bits = scrambled(code.encode(&block));
    assert!(rt; bits.len() == 864);
    let mut grid = Grid::blank(rt.alloc(), 1, 0, 0, 51)?;
    put_bits(&mut grid, 0, &eight_cces(), 500, &bits);
    let plan = plan_for(&rt, rt.alloc(), 17)?;
    let watch = watch_of(&plan);
    assert_eq!(rt; payload.len(), usize::from(watch.size));
    assert!(rt; grid.blocks() == 51);
    assert_eq!(rt; hear(&tables, watch, 0, &grid).err(), Some(Silence::Format));
    Ok(())
}
