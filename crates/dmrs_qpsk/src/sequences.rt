//! The reference points of one symbol, one after the other.
ghost use Rattle.std.specs.Prelude.{◌≡◌, ◌+◌, ◌*◌, ◌^◌, ◌<◌, ◌≤◌};
ghost use Rattle.gold_scrambler.specs.Gold.{gold};
ghost use Rattle.dmrs_qpsk.specs.Modulation.{point_of};
ghost use Rattle.dmrs_qpsk.specs.ReferencePoints.{reference};

use crate::reference::{qpsk_point, sequence_start};
use gold_scrambler::Gold;
use slot_grid::Point;
use std::marker::Model;

/// The sequence of the reference points of one symbol, standing before one of its bits.
#[derive(Drop)]
pub(crate) struct Sequence {
    gold: Gold,
    start: u32,
    at: u32,
}

impl Model for Sequence {
    ghost use Rattle.dmrs_qpsk.specs.Sequences.{SequenceValue, IsSequence};

    ghost Value = { SequenceValue };

    ghost view = { λ s. record { start = s.start; at = s.at } };

    ghost invariant = { λ s. IsSequence s.start s.at s.gold };
}

impl Sequence {
    /// The sequence of a start value, before its first bit.
    fn of(start: u32) -> Sequence
        requires { start < 2 ^ 31 }
        ensures start { result.start ≡ start }
        ensures at { result.at ≡ 0 }
    {
        Sequence {
            gold: Gold::new(start),
            start,
            at: 0,
        }
    }

    /// The sequence of a start value before a bit or an earlier one: the given one, where it stands there, or a new one.
    fn before(given: Option<Sequence>, start: u32, bit: u32) -> Sequence
        requires { start < 2 ^ 31 }
        ensures start { result.start ≡ start }
        ensures at { result.at ≤ bit }
    {
        match given {
            Some(sequence) => {
                if sequence.start == start && sequence.at <= bit {
                    sequence
                } else {
                    Sequence::of(start)
                }
            }
            None => Sequence::of(start),
        }
    }

    /// The point of two bits from one on, which are passed with all before them.
    fn point(&mut self, bit: u32) -> Point
        requires before { self.old.at ≤ bit }
        requires within { bit + 2 ≤ 2 ^ 30 }
        ensures { result ≡ point_of (gold self.old.start bit) (gold self.old.start (bit + 1)) }
    {
        self.gold.skip(bit - self.at);
        self.at = bit + 2;
        let first = self.gold.next_bit();
        let second = self.gold.next_bit();
        qpsk_point(first, second)
    }
}

/// The reference point at subcarrier `4 * k + 1` of a common block, read from a sequence that begins anew only where it is of
/// another symbol or has passed the point (3GPP TS 38.211, 7.4.1.3.1).
pub(crate) fn next_reference(
    sequence: &mut Option<Sequence>,
    slot: u16,
    symbol: u8,
    id: u16,
    block: u16,
    k: u8,
) -> Point
    requires slot { slot < 80 }
    requires symbol { symbol < 14 }
    requires block { block < 275 }
    requires k { k ≤ 2 }
    ensures { result ≡ reference slot symbol id block k }
{
    let bit = 2 * (3 * u32::from(block) + u32::from(k));
    let start = sequence_start(slot, symbol, id);
    let mut standing = Sequence::before(sequence.take(), start, bit);
    let point = standing.point(bit);
    *sequence = Some(standing);
    point
}
