//! The bits on the places of a candidate.
ghost use Rattle.std.specs.Prelude.{◌≡◌, ◌*◌, ◌≤◌, ◌↔◌, Bool, List, length, IfOk, IfErr};
ghost use Rattle.dmrs_qpsk.specs.declared.taking.BadPlace.{BadPlace};
ghost use Rattle.coreset_map.specs.RegOrder.{AreInside, AreRegs};
ghost use Rattle.dmrs_qpsk.specs.Held.{Holds, IsFirstBad};

use crate::one_by_one::take_rest;
use crate::packing::{append, bits_of_reg};
use crate::references::References;
use arrayvec::ArrayVec;
use bits_core::Coded;
use coreset_map::Reg;
use slot_grid::Grid;

/// What is wrong with a place of a candidate.
#[derive(Clone, Copy, Debug, PartialEq, Eq)]
pub enum Flaw {
    /// The place is for data and has no point.
    Empty,
    /// The place is for a reference point and has not that point.
    Reference,
}

/// A place of a candidate that keeps it from having bits: its symbol of the slot, its subcarrier, and what is wrong there.
#[derive(Clone, Copy, Debug, PartialEq, Eq)]
pub struct BadPlace {
    pub symbol: u8,
    pub subcarrier: u16,
    pub flaw: Flaw,
}

/// The bits whose points are on the data places of REGs, 18 for each, where every reference place has its reference point.
///
/// The REGs are in order of symbol, then block, and inside the grid, where their symbols are counted from symbol
/// `first` of the slot. `id` is the scrambling identity of the reference points. The error is the first bad place by
/// symbol, then subcarrier.
pub fn take_bits(
    grid: &Grid,
    first: u8,
    regs: &ArrayVec<Reg, 96>,
    id: u16,
) -> Result<Coded, BadPlace>
    requires regs { AreRegs regs.now.items }
    requires inside { AreInside first grid.now.blocks regs.now.items }
    ensures bits { (bits : List Bool) → (result ≡ Ok bits) ↔ Holds grid.now first id regs.now.items bits }
    ensures bad { (bad : BadPlace) → (result ≡ Err bad) ↔ IsFirstBad grid.now first id regs.now.items bad }
    ensures length { IfOk result (λ bits. length bits ≡ 18 * length regs.now.items) }
{
    let mut references = References::new();
    take_bits_with(&mut references, grid, first, regs, id)
}

/// The same bits, or the same bad place, by the reference bits that are kept: for whoever takes bits on many candidates of a
/// slot.
pub fn take_bits_with(
    references: &mut References,
    grid: &Grid,
    first: u8,
    regs: &ArrayVec<Reg, 96>,
    id: u16,
) -> Result<Coded, BadPlace>
    requires regs { AreRegs regs.now.items }
    requires inside { AreInside first grid.now.blocks regs.now.items }
    ensures bits { (bits : List Bool) → (result ≡ Ok bits) ↔ Holds grid.now first id regs.now.items bits }
    ensures bad { (bad : BadPlace) → (result ≡ Err bad) ↔ IsFirstBad grid.now first id regs.now.items bad }
    ensures length { IfOk result (λ bits. length bits ≡ 18 * length regs.now.items) }
{
    take_bits_core(references, grid, first, regs.as_slice(), id)
}

/// The bits on each REG: a whole REG at once, and place by place from the first one on that has a bad place.
fn take_bits_core(
    references: &mut References,
    grid: &Grid,
    first: u8,
    regs: &[Reg],
    id: u16,
) -> Result<Coded, BadPlace>
    requires regs { AreRegs regs.now }
    requires inside { AreInside first grid.now.blocks regs.now }
    requires few { length regs.now ≤ 96 }
    ensures bits { IfOk result (λ bits. Holds grid.now first id regs.now bits) }
    ensures bad { IfErr result (λ bad. IsFirstBad grid.now first id regs.now bad) }
{
    let slot = grid.slot();
    let mut words = [0; 27];
    for j in 0..regs.len() {
        let reg = regs[j];
        let symbol = first + reg.symbol;
        let wanted = references.bits_of(slot, symbol, id, reg.block);
        match bits_of_reg(grid.block(symbol, reg.block), wanted) {
            Some(packed) => append(&mut words, 18 * j, packed),
            None => return take_rest(grid, first, regs, id, j, Coded::of_words(words, 18 * j)),
        }
    }
    Ok(Coded::of_words(words, 18 * regs.len()))
}
