//! The positions of a word that carry the bits of a block (3GPP TS 38.212, 5.3.1).
ghost use Rattle.bits_core.specs.Bits.{bit_of};
ghost use Rattle.list_facts.specs.Counting.{count_below};
ghost use Rattle.polar_chain.specs.Carriers.{AreCarriers};
ghost use Rattle.std.specs.Prelude.{◌≤◌, length};
ghost use Rattle.table_files.specs.Permutation.{IsTable};

use polar_sets::PositionSet;

/// The position of a word of `n` bits that carries each bit of a block, whose bits enter in the input order at the information
/// positions from the first to the last.
pub(crate) fn carriers_of(order: &[u16], positions: &PositionSet, n: usize) -> [u16; 164]
    requires order { IsTable (length order.now) order.now }
    requires few { length order.now ≤ 164 }
    requires room { count_below n (bit_of positions.now) ≤ length order.now }
    requires most { n ≤ 512 }
    ensures { AreCarriers n order.now (bit_of positions.now) result }
{
    let mut carriers = [0; 164];
    let mut turn = 0;
    for at in 0..n {
        if positions.has(at) {
            carriers[usize::from(order[turn])] = at as u16;
            turn += 1;
        }
    }
    carriers
}
