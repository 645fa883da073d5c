//! Bits on the places of a candidate.
ghost use Rattle.std.specs.Prelude.{◌≡◌, ◌*◌, ◌≤◌, length};
ghost use Rattle.slot_grid.specs.Image.{overwritten};
ghost use Rattle.coreset_map.specs.RegOrder.{AreInside, AreRegs};
ghost use Rattle.dmrs_qpsk.specs.PointsOnGrid.{image_of};
ghost use Rattle.dmrs_qpsk.specs.Placed.{AreRegsPut};

use crate::packing::{bits_at, word_of_reg};
use crate::references::References;
use arrayvec::ArrayVec;
use bits_core::Coded;
use coreset_map::Reg;
use slot_grid::Grid;

/// Writes the points of bits, 18 for each REG, and the reference points of the REGs, and leaves every other place.
///
/// The REGs are in order of symbol, then block, and inside the grid, where their symbols are counted from symbol
/// `first` of the slot. `id` is the scrambling identity of the reference points.
pub fn put_bits(grid: &mut Grid, first: u8, regs: &ArrayVec<Reg, 96>, id: u16, bits: &Coded)
    requires regs { AreRegs regs.now.items }
    requires inside { AreInside first grid.old.blocks regs.now.items }
    requires bits { length bits.now ≡ 18 * length regs.now.items }
    ensures blocks { grid.new.blocks ≡ grid.old.blocks }
    ensures slot { grid.new.slot ≡ grid.old.slot }
    ensures grid { grid.new ≡ overwritten (image_of grid.old.slot first id regs.now.items bits.now) grid.old }
{
    let mut references = References::new();
    put_bits_with(&mut references, grid, first, regs, id, bits);
}

/// Writes the same points, by the reference bits that are kept: for whoever puts bits on many candidates of a slot.
pub fn put_bits_with(
    references: &mut References,
    grid: &mut Grid,
    first: u8,
    regs: &ArrayVec<Reg, 96>,
    id: u16,
    bits: &Coded,
)
    requires regs { AreRegs regs.now.items }
    requires inside { AreInside first grid.old.blocks regs.now.items }
    requires bits { length bits.now ≡ 18 * length regs.now.items }
    ensures blocks { grid.new.blocks ≡ grid.old.blocks }
    ensures slot { grid.new.slot ≡ grid.old.slot }
    ensures grid { grid.new ≡ overwritten (image_of grid.old.slot first id regs.now.items bits.now) grid.old }
{
    put_bits_core(references, grid, first, regs.as_slice(), id, bits);
}

/// Writes the points of each REG, a whole REG at once.
fn put_bits_core(
    references: &mut References,
    grid: &mut Grid,
    first: u8,
    regs: &[Reg],
    id: u16,
    bits: &Coded,
)
    requires regs { AreRegs regs.now }
    requires inside { AreInside first grid.old.blocks regs.now }
    requires few { length regs.now ≤ 96 }
    ensures places { AreRegsPut first id regs.now bits.now (length regs.now) grid.old grid.new }
    ensures size { length grid.old.points ≡ 14 * (12 * grid.old.blocks) }
{
    let slot = grid.slot();
    for j in 0..regs.len() {
        let reg = regs[j];
        let symbol = first + reg.symbol;
        let wanted = references.bits_of(slot, symbol, id, reg.block);
        let word = word_of_reg(bits_at(bits, 18 * j), wanted);
        grid.put_block(symbol, reg.block, word);
    }
}
