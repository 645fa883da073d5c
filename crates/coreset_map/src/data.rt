//! The places of a candidate's data (3GPP TS 38.211, 7.3.2.5).
ghost use Rattle.std.specs.Prelude.{◌≡◌, ℕ, ◌*◌, ◌<◌, length, Some, slice_get};
ghost use Rattle.coreset_map.specs.RegOrder.{AreRegs, AreBlocksBelow, AreWithin};
ghost use Rattle.coreset_map.specs.DataPlaces.{data_places};

use crate::{Reg, Spot};
use arrayvec::ArrayVec;

/// Data place `at` of REGs, 9 for each, by symbol and then by rising subcarrier.
///
/// The REGs are distinct and in order of symbol, then block, and each block is below 275.
pub fn data_place(regs: &ArrayVec<Reg, 96>, at: usize) -> Spot
    requires regs { AreRegs regs.now.items }
    requires blocks { AreBlocksBelow 275 regs.now.items }
    requires at { at < 9 * length regs.now.items }
    ensures { (symbols blocks : ℕ) → AreWithin symbols blocks regs.now.items
        → slice_get (data_places symbols blocks regs.now.items) at ≡ Some result }
{
    let reg = regs[at / 9];
    let rank = (at % 9) as u16;
    Spot {
        symbol: reg.symbol,
        subcarrier: 12 * reg.block + rank + (rank + 2) / 3,
    }
}
