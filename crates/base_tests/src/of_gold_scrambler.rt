//! Bits of the sequence that are known.
ghost use Rattle.std.specs.Prelude.{◌≡◌, ◌+◌, ◌^◌, ◌<◌, ◌≤◌, length};

use bits_core::Coded;
use gold_scrambler::Gold;

/// A start value, c(0) to c(63), and c(1000) to c(1031).
const SEQUENCES: [(u32, &[u8; 64], &[u8; 32]); 6] = [
    (
        500,
        b"0001111110110100100110000100001101011111111011101100110110011101",
        b"10001100100111111011110010111000",
    ),
    (
        131204072,
        b"0101001001000010010000101100110001000011000000110110111000110110",
        b"11101010111111010010111000110010",
    ),
    (
        1,
        b"0000001010000011000000110111010000101011100110101111110111100010",
        b"10111010101101111101111111101000",
    ),
    (
        2147483647,
        b"1111110100001011111100111000111000101110011000000101011110001110",
        b"11101000000111011000010101000010",
    ),
    (
        0,
        b"0000001000011010000100100111101000100101100101010000001101010110",
        b"01001101010010010011000000010110",
    ),
    (
        1073741824,
        b"0000001100101000001100000110011000111001100010101111111000111111",
        b"10100010101101001110111111101011",
    ),
];

/// Whether the next bits are those of a text of zeros and ones.
fn continues_with(gold: &mut Gold, text: &[u8]) -> bool
    requires { gold.old.at + length text.now ≤ 2 ^ 30 }
    ensures { gold.new.at ≡ gold.old.at + length text.now }
{
    let mut same = true;
    for digit in text {
        let bit = gold.next_bit();
        same = same && bit == (*digit == b'1');
    }
    same
}

#[test]
fn known_sequences(rt: HostRuntime) {
    for (c_init, first, later) in SEQUENCES {
        assert!(rt; c_init < 1 << 31);
        let mut gold = Gold::new(c_init);
        assert!(rt;
            continues_with(&mut gold, first),
            "the first bits of {c_init}"
        );
        gold.skip(1000 - 64);
        assert!(rt;
            continues_with(&mut gold, later),
            "the later bits of {c_init}"
        );
    }
}

/// Whether the bits are those of a text of zeros and ones.
fn are_spelled(bits: &Coded, text: &[u8]) -> bool {
    if bits.len() != text.len() {
        return false;
    }
    for (at, digit) in text.iter().enumerate() {
        if bits.get(at) != (*digit == b'1') {
            return false;
        }
    }
    true
}

#[test]
fn known_sequences_in_rows(rt: HostRuntime) {
    let mut row = Coded::new();
    for (c_init, first, later) in SEQUENCES {
        assert!(rt; c_init < 1 << 31);
        let mut gold = Gold::new(c_init);
        gold.fill(&mut row, 64);
        assert!(rt; are_spelled(&row, first), "the first bits of {c_init}");
        gold.skip(1000 - 64);
        gold.fill(&mut row, 32);
        assert!(rt; are_spelled(&row, later), "the later bits of {c_init}");
    }
}

/// Counts beside the ends of a turn of 28 bits and of a word, and the longest.
const COUNTS: [usize; 10] = [0, 1, 27, 28, 29, 63, 64, 65, 1650, 1728];

/// Whether the next bits are those of a row.
fn continues_with_row(gold: &mut Gold, row: &Coded) -> bool
    requires { gold.old.at ≤ 2 ^ 20 }
    ensures { gold.new.at ≤ gold.old.at + 1728 }
{
    let mut same = true;
    for at in 0..row.len() {
        let bit = gold.next_bit();
        same = same && bit == row.get(at);
    }
    same
}

/// Whether the first `count` bits of the sequence of `c_init`, and those that come after as many that were filled or passed, are
/// its bits one by one.
fn is_bit_by_bit(c_init: u32, count: usize) -> bool
    requires start { c_init < 2 ^ 31 }
    requires count { count ≤ 1728 }
{
    let mut row = Coded::new();
    let mut after = Coded::new();
    let mut by_bits = Gold::new(c_init);
    let mut by_rows = Gold::new(c_init);
    by_rows.fill(&mut row, count);
    let first = continues_with_row(&mut by_bits, &row);
    by_rows.fill(&mut row, 100);
    let mut skipped = Gold::new(c_init);
    skipped.skip(count as u32);
    skipped.fill(&mut after, 100);
    first && continues_with_row(&mut by_bits, &row) && row == after
}

#[test]
fn many_bits_at_once(rt: HostRuntime) {
    for (c_init, _, _) in SEQUENCES {
        for count in COUNTS {
            assert!(rt; c_init < 1 << 31 && count <= 1728);
            assert!(rt; is_bit_by_bit(c_init, count), "{count} bits of {c_init}");
        }
    }
}
