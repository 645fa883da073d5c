//! Words of single input bits, and the packed form against the plain one.
ghost use Rattle.bits_core.specs.CodeLengths.{is_code_length};
ghost use Rattle.std.specs.Prelude.{◌≡◌, ◌*◌, ◌^◌, ◌≤◌, IsTrue};

use polar_kernel::{transform, transform_words};

// The last row of the matrix is all ones at each length, and the first has a one in column 0 alone.
#[test]
fn single_rows(rt: HostRuntime) {
    let mut last = [false; 32];
    last[31] = true;
    transform(&mut last);
    assert!(rt; last == [true; 32]);

    let mut first = [false; 32];
    first[0] = true;
    let before = first;
    transform(&mut first);
    assert!(rt; first == before);

    let mut word64 = [false; 64];
    word64[63] = true;
    transform(&mut word64);
    assert!(rt; word64 == [true; 64]);

    let mut word128 = [false; 128];
    word128[127] = true;
    transform(&mut word128);
    assert!(rt; word128 == [true; 128]);

    let mut word256 = [false; 256];
    word256[255] = true;
    transform(&mut word256);
    assert!(rt; word256 == [true; 256]);

    let mut word512 = [false; 512];
    word512[511] = true;
    transform(&mut word512);
    assert!(rt; word512 == [true; 512]);
}

/// The words that the tests of the packed form begin with.
fn pseudo_random<const W: usize>(seed: u64) -> [u64; W] {
    let mut words = [0; W];
    let mut state = seed;
    for at in 0..W {
        state ^= state << 13;
        state ^= state >> 7;
        state ^= state << 17;
        words[at] = state;
    }
    words
}

/// Whether `transform_words` leaves the word of `transform` at `2^n` bits, and each other bit as it was.
fn packed_agrees<const N: usize, const W: usize>(n: u32, seed: u64) -> bool
    requires code { IsTrue (is_code_length N) }
    requires bits { N ≡ 2 ^ n }
    requires least { 5 ≤ n }
    requires most { n ≤ 9 }
    requires room { N ≤ 64 * W }
    requires size { W ≤ 16 }
{
    let mut words: [u64; W] = pseudo_random(seed);
    let before = words;
    let mut bits = [false; N];
    for at in 0..N {
        bits[at] = before[at / 64] >> (at % 64) & 1 == 1;
    }
    transform(&mut bits);
    transform_words(&mut words, n);
    for at in 0..64 * W {
        let found = words[at / 64] >> (at % 64) & 1 == 1;
        let expected = if at < N {
            bits[at]
        } else {
            before[at / 64] >> (at % 64) & 1 == 1
        };
        if found != expected {
            return false;
        }
    }
    true
}

// With 32 bits the second half of the first word and the second word stay.
#[test]
fn packed_last_row(rt: HostRuntime) {
    let mut zeros = [0x8000_0000, 0x0123_4567_89AB_CDEF];
    transform_words(&mut zeros, 5);
    assert!(rt; zeros == [0xFFFF_FFFF, 0x0123_4567_89AB_CDEF]);

    let mut ones = [0xFFFF_FFFF_8000_0000, 0x0123_4567_89AB_CDEF];
    transform_words(&mut ones, 5);
    assert!(rt; ones == [0xFFFF_FFFF_FFFF_FFFF, 0x0123_4567_89AB_CDEF]);
}

// The packed form agrees with the plain one at each length, in eight words and in more.
#[test]
fn packed_agrees_with_plain(rt: HostRuntime) {
    assert!(rt; packed_agrees::<32, 8>(5, 0x9E37_79B9_7F4A_7C15));
    assert!(rt; packed_agrees::<64, 8>(6, 0xBF58_476D_1CE4_E5B9));
    assert!(rt; packed_agrees::<128, 8>(7, 0x94D0_49BB_1331_11EB));
    assert!(rt; packed_agrees::<256, 8>(8, 0x2545_F491_4F6C_DD1D));
    assert!(rt; packed_agrees::<512, 8>(9, 0xD6E8_FEB8_6659_FD93));
    assert!(rt; packed_agrees::<32, 10>(5, 0x9E37_79B9_7F4A_7C15));
    assert!(rt; packed_agrees::<64, 10>(6, 0xBF58_476D_1CE4_E5B9));
    assert!(rt; packed_agrees::<128, 10>(7, 0x94D0_49BB_1331_11EB));
    assert!(rt; packed_agrees::<256, 10>(8, 0x2545_F491_4F6C_DD1D));
    assert!(rt; packed_agrees::<512, 10>(9, 0xD6E8_FEB8_6659_FD93));
}
