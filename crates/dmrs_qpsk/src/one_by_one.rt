//! The bits on the places of a candidate, place by place.
ghost use Rattle.std.specs.Prelude.{◌≡◌, ◌+◌, ◌*◌, ◌<◌, ◌≤◌, length, IfOk, IfErr, OnOk, MatchOption};
ghost use Rattle.slot_grid.specs.declared.places.Point.TheVariants.{Empty as NoPoint};
ghost use Rattle.slot_grid.specs.Grid.{point_at};
ghost use Rattle.coreset_map.specs.RegOrder.{AreInside, AreRegs};
ghost use Rattle.dmrs_qpsk.specs.Modulation.{point_of};
ghost use Rattle.dmrs_qpsk.specs.Held.{Holds, IsFlawed, IsFirstBad};
ghost use Rattle.dmrs_qpsk.specs.Taken.{ArePointsTaken, IsPointTaken};

use crate::reference::{has_reference, references_before};
use crate::sequences::{Sequence, next_reference};
use crate::taking::{BadPlace, Flaw};
use bits_core::Coded;
use coreset_map::Reg;
use slot_grid::{Grid, Point};

/// The bits on each REG, where those of the REGs before `from` are known: place by place.
pub(crate) fn take_rest(
    grid: &Grid,
    first: u8,
    regs: &[Reg],
    id: u16,
    from: usize,
    mut bits: Coded,
) -> Result<Coded, BadPlace>
    requires regs { AreRegs regs.now }
    requires inside { AreInside first grid.now.blocks regs.now }
    requires few { length regs.now ≤ 96 }
    requires from { from ≤ length regs.now }
    requires taken { ArePointsTaken grid.now first id regs.now bits (12 * from) }
    ensures bits { IfOk result (λ bits. Holds grid.now first id regs.now bits) }
    ensures bad { IfErr result (λ bad. IsFirstBad grid.now first id regs.now bad) }
{
    let _blocks = grid.blocks();
    let mut sequence = None;
    for place in 12 * from..12 * regs.len() {
        let reg = regs[place / 12];
        let k = (place % 12) as u8;
        let symbol = first + reg.symbol;
        if let Err(flaw) = take_point(grid, &mut sequence, symbol, id, reg.block, k, &mut bits) {
            let subcarrier = 12 * reg.block + u16::from(k);
            return Err(BadPlace {
                symbol,
                subcarrier,
                flaw,
            });
        }
    }
    Ok(bits)
}

/// Appends the bits at subcarrier `k` of a REG, which is in this symbol of the slot and this block: two, or none at a
/// reference place. `sequence` is where the reference points were last read, so that they need not be counted from the
/// first one.
fn take_point(
    grid: &Grid,
    sequence: &mut Option<Sequence>,
    symbol: u8,
    id: u16,
    block: u16,
    k: u8,
    bits: &mut Coded,
) -> Result<(), Flaw>
    requires symbol { symbol < 14 }
    requires block { block < grid.now.blocks }
    requires k { k < 12 }
    requires room { length bits.old + 2 ≤ 1728 }
    ensures taken { OnOk result (IsPointTaken grid.now symbol id block k bits.old bits.new) }
    ensures flawed { IfErr result (λ flaw. IsFlawed grid.now.slot symbol id block k
        (point_at grid.now symbol (12 * block + k)) flaw) }
{
    let _blocks = grid.blocks();
    let point = grid.get(symbol, 12 * block + u16::from(k));
    if has_reference(k) {
        let number = references_before(k);
        if point == next_reference(sequence, grid.slot(), symbol, id, block, number) {
            return Ok(());
        }
        return Err(Flaw::Reference);
    }
    match bits_of_point(point) {
        Some((first, second)) => {
            bits.push(first);
            bits.push(second);
            Ok(())
        }
        None => Err(Flaw::Empty),
    }
}

/// The two bits of a QPSK point, none of an empty place (3GPP TS 38.211, 5.1.3).
fn bits_of_point(point: Point) -> Option<(bool, bool)>
    ensures { MatchOption result (point ≡ NoPoint) (λ bits. point ≡ point_of bits.0 bits.1) }
{
    match point {
        Point::Empty => None,
        Point::P00 => Some((false, false)),
        Point::P01 => Some((false, true)),
        Point::P10 => Some((true, false)),
        Point::P11 => Some((true, true)),
    }
}
