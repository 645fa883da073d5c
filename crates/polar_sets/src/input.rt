//! The order in which the bits of a block enter the polar code (3GPP TS 38.212, 5.3.1.1).
ghost use Rattle.polar_sets.specs.InputOrder.{order_from};
ghost use Rattle.std.specs.Prelude.{◌≡◌, ◌≤◌};
ghost use Rattle.table_files.specs.Permutation.{IsTable};

use arrayvec::ArrayVec;
use table_files::InputOrder;

/// How many bits the longest block has.
const LONGEST: u16 = 164;

/// Which bit of a block of `k` bits enters at each turn.
pub fn input_order(table: &InputOrder, k: usize) -> ArrayVec<u16, 164>
    requires block { 1 ≤ k }
    requires longest { k ≤ 164 }
    ensures order { result.items ≡ order_from table.now k }
    ensures permutation { IsTable k result.items }
{
    let first = LONGEST - k as u16;
    let mut order = ArrayVec::new();
    for place in 0..164 {
        let entry = table.at(place);
        if entry >= first {
            order.push(entry - first);
        }
    }
    order
}
