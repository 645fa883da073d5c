//! QPSK points, and those of the demodulation reference signal.
ghost use Rattle.std.specs.Prelude.{◌≡◌, ◌^◌, ◌<◌, ◌≤◌, true};
ghost use Rattle.coreset_map.specs.DataPlaces.{is_reference};
ghost use Rattle.dmrs_qpsk.specs.Modulation.{point_of};
ghost use Rattle.dmrs_qpsk.specs.PointsOnGrid.{reference_rank};
ghost use Rattle.dmrs_qpsk.specs.ReferencePoints.{reference, reference_start};

use gold_scrambler::Gold;
use slot_grid::Point;

/// The QPSK point of two bits (3GPP TS 38.211, 5.1.3).
pub fn qpsk_point(first: bool, second: bool) -> Point
    ensures { result ≡ point_of first second }
{
    match (first, second) {
        (false, false) => Point::P00,
        (false, true) => Point::P01,
        (true, false) => Point::P10,
        (true, true) => Point::P11,
    }
}

/// Whether subcarrier `k` of a block has a reference point (3GPP TS 38.211, 7.4.1.3.2).
pub(crate) fn has_reference(k: u8) -> bool
    ensures { result ≡ is_reference k }
{
    k == 1 || k == 5 || k == 9
}

/// How many reference points a block has below subcarrier `k`, which has one.
pub(crate) fn references_before(k: u8) -> u8
    requires { is_reference k ≡ true }
    ensures value { result ≡ reference_rank k }
    ensures small { result ≤ 2 }
{
    k / 4
}

/// The reference point at subcarrier `4 * k + 1` of a common block (3GPP TS 38.211, 7.4.1.3.1).
///
/// `slot` is below 80, `symbol` is that of the slot, `id` is the scrambling identity, `block` is below 275, and `k` at most 2.
pub fn reference_point(slot: u16, symbol: u8, id: u16, block: u16, k: u8) -> Point
    requires slot { slot < 80 }
    requires symbol { symbol < 14 }
    requires block { block < 275 }
    requires k { k ≤ 2 }
    ensures { result ≡ reference slot symbol id block k }
{
    let mut gold = Gold::new(sequence_start(slot, symbol, id));
    gold.skip(2 * (3 * u32::from(block) + u32::from(k)));
    let first = gold.next_bit();
    let second = gold.next_bit();
    qpsk_point(first, second)
}

/// The start value of the sequence of reference points in one symbol.
pub(crate) fn sequence_start(slot: u16, symbol: u8, id: u16) -> u32
    requires slot { slot < 80 }
    requires symbol { symbol < 14 }
    ensures value { result ≡ reference_start slot symbol id }
    ensures small { result < 2 ^ 31 }
{
    let symbols = 14 * u64::from(slot) + u64::from(symbol) + 1;
    let id = u64::from(id);
    (((1 << 17) * symbols * (2 * id + 1) + 2 * id) % (1 << 31)) as u32
}
