//! Values that are known from outside.
use crate::bits::{row_of, spells};
use bits_core::Coded;
use rate_match::{Differs, length_for, order_of, select, select_words, unselect, unselect_words};
use std::process::Abort;

#[test]
fn lengths(rt: HostRuntime) {
    let lengths: [(usize, usize, usize); 24] = [
        (63, 108, 128),
        (63, 216, 256),
        (63, 160, 256),
        (63, 144, 128),
        (81, 144, 256),
        (63, 432, 512),
        (63, 864, 512),
        (63, 1728, 512),
        (108, 108, 128),
        (47, 108, 128),
        (4, 24, 32),
        (1, 1, 32),
        (164, 432, 512),
        (164, 200, 256),
        (108, 216, 256),
        (12, 30, 32),
        (60, 1728, 512),
        (1, 2, 32),
        (1, 36, 32),
        (1, 37, 32),
        (40, 72, 64),
        (40, 73, 128),
        (41, 72, 128),
        (164, 1728, 512),
    ];
    for (k, e, n) in lengths {
        assert!(rt; 1 <= k && k <= 164 && 1 <= e && e <= 1728);
        assert_eq!(rt; length_for(k, e), n);
    }
}

#[test]
fn orders(rt: HostRuntime) {
    let of_32: [usize; 32] = [
        0, 1, 2, 4, 3, 5, 6, 7, 8, 16, 9, 17, 10, 18, 11, 19, 12, 20, 13, 21, 14, 22, 15, 23, 24,
        25, 26, 28, 27, 29, 30, 31,
    ];
    for (at, position) in of_32.iter().enumerate() {
        assert!(rt; at < 32);
        assert_eq!(rt; order_of(32, at), *position);
    }
    let of_64: [usize; 64] = [
        0, 1, 2, 3, 4, 5, 8, 9, 6, 7, 10, 11, 12, 13, 14, 15, 16, 17, 32, 33, 18, 19, 34, 35, 20,
        21, 36, 37, 22, 23, 38, 39, 24, 25, 40, 41, 26, 27, 42, 43, 28, 29, 44, 45, 30, 31, 46, 47,
        48, 49, 50, 51, 52, 53, 56, 57, 54, 55, 58, 59, 60, 61, 62, 63,
    ];
    for (at, position) in of_64.iter().enumerate() {
        assert!(rt; at < 64);
        assert_eq!(rt; order_of(64, at), *position);
    }
    assert_eq!(rt; order_of(128, 12), 16);
    assert_eq!(rt; order_of(128, 16), 12);
}

#[test]
fn word_of_a_punctured_code(rt: HostRuntime) {
    let bits = row_of(b"001101000000100010001001000000");
    let mut word = [false; 32];
    assert!(rt; length_for(12, 30) == 32);
    assert!(rt; unselect(&bits, 12, &mut word) == Ok(()));
    assert!(rt; spells(b"00010101000101010000000001000000", &word));
    let mut sent = Coded::new();
    select(&word, 12, 30, &mut sent);
    assert!(rt; sent == bits);
}

#[test]
fn word_of_a_shortened_code(rt: HostRuntime) {
    let bits = row_of(b"110010110100111000111100000111010011111101001000101101100100");
    let mut word = [false; 64];
    assert!(rt; length_for(40, 60) == 64);
    assert!(rt; unselect(&bits, 40, &mut word) == Ok(()));
    assert!(rt;
        spells(
            b"1100100111001110001100110011011011000101111100001011010110000000",
            &word,
        )
    );
    let mut sent = Coded::new();
    select(&word, 40, 60, &mut sent);
    assert!(rt; sent == bits);
}

// Six bits are sent twice: a copy that differs is told, the first one where there are several.
#[test]
fn word_of_a_repeated_code(rt: HostRuntime) {
    let mut bits = row_of(
        b"0101101111010110101010001101101110010110111010101001101010101010010110",
    );
    let mut word = [false; 64];
    assert!(rt; length_for(31, 70) == 64);
    assert!(rt; unselect(&bits, 31, &mut word) == Ok(()));
    assert!(rt;
        spells(
            b"0101101111010110101011101001111010000111011010101001101010101010",
            &word,
        )
    );
    let mut sent = Coded::new();
    select(&word, 31, 70, &mut sent);
    assert!(rt; sent == bits);
    bits.set(69, true);
    assert!(rt; unselect(&bits, 31, &mut word) == Err(Differs { at: 69 }));
    bits.set(2, true);
    assert!(rt; unselect(&bits, 31, &mut word) == Err(Differs { at: 66 }));
}

// Packed words give what single bits give, at each length and by each way of matching.
#[test]
fn packed_words(rt: HostRuntime) {
    agree::<32>(&rt, 5, 1, 36);
    agree::<32>(&rt, 5, 12, 30);
    agree::<32>(&rt, 5, 20, 30);
    agree::<64>(&rt, 6, 31, 70);
    agree::<64>(&rt, 6, 24, 60);
    agree::<64>(&rt, 6, 40, 60);
    agree::<128>(&rt, 7, 63, 144);
    agree::<128>(&rt, 7, 47, 108);
    agree::<128>(&rt, 7, 63, 108);
    agree::<256>(&rt, 8, 64, 280);
    agree::<256>(&rt, 8, 63, 216);
    agree::<256>(&rt, 8, 164, 200);
    agree::<512>(&rt, 9, 60, 1728);
    agree::<512>(&rt, 9, 108, 432);
    agree::<512>(&rt, 9, 164, 300);
}

// The bits that are sent of one word and the word that they leave, and the first bit that differs from the one that it
// repeats, by single bits and by packed words.
fn agree<const N: usize>(rt: &impl Abort, n: u32, k: usize, e: usize) {
    assert!(rt; 1 <= k && k <= 164 && 1 <= e && e <= 1728);
    assert!(rt; n < 10 && 2usize.pow(n) == N && N <= 512 && length_for(k, e) == N);
    let packed: [u64; 8] = [
        0x243f_6a88_85a3_08d3,
        0x1319_8a2e_0370_7344,
        0xa409_3822_299f_31d0,
        0x082e_fa98_ec4e_6c89,
        0x4528_21e6_38d0_1377,
        0xbe54_66cf_34e9_0c6c,
        0xc0ac_29b7_c97c_50dd,
        0x3f84_d5b5_b547_0917,
    ];
    let mut word = [false; N];
    for at in 0..N {
        word[at] = packed[at / 64] >> (at % 64) & 1 == 1;
    }
    let mut sent = Coded::new();
    select(&word, k, e, &mut sent);
    let mut sent_words = Coded::new();
    select_words(&packed, n, k, e, &mut sent_words);
    assert!(rt; sent == sent_words);
    leave_one_word::<N>(rt, n, k, &sent);
    for at in [N, (N + e) / 2, e - 1] {
        if N <= at && at < sent.len() {
            let bit = sent.get(at);
            sent.set(at, !bit);
            differ_at::<N>(rt, n, k, &sent, at);
            sent.set(at, bit);
        }
    }
}

// Both ways leave the same word, and packed words have zeros past it.
fn leave_one_word<const N: usize>(rt: &impl Abort, n: u32, k: usize, sent: &Coded) {
    let e = sent.len();
    assert!(rt; 1 <= k && k <= 164 && 1 <= e && e <= 1728);
    assert!(rt; n < 10 && 2usize.pow(n) == N && N <= 512 && length_for(k, e) == N);
    let mut word = [true; N];
    let mut packed = [u64::MAX; 9];
    assert!(rt; unselect(sent, k, &mut word) == Ok(()));
    assert!(rt; unselect_words(sent, k, n, &mut packed) == Ok(()));
    for at in 0..576 {
        let bit = packed[at / 64] >> (at % 64) & 1 == 1;
        assert!(rt; bit == (at < N && word[at]));
    }
}

// Both ways tell the same place, and packed words stay as they were.
fn differ_at<const N: usize>(rt: &impl Abort, n: u32, k: usize, sent: &Coded, at: usize) {
    let e = sent.len();
    assert!(rt; 1 <= k && k <= 164 && 1 <= e && e <= 1728);
    assert!(rt; n < 10 && 2usize.pow(n) == N && N <= 512 && length_for(k, e) == N);
    let mut word = [true; N];
    let mut packed = [u64::MAX; 8];
    assert!(rt; unselect(sent, k, &mut word) == Err(Differs { at }));
    assert!(rt; unselect_words(sent, k, n, &mut packed) == Err(Differs { at }));
    assert!(rt; packed == [u64::MAX; 8]);
}
