//! Rows of bits by their words.
use bits_core::{Block, Coded};

// A row of 70 ones in three words: the first is full, the second has six bits, and nothing stands in the third.
#[test]
fn words_of_a_row(rt: HostRuntime) {
    let mut row = Block::new();
    for _ in 0..70 {
        assert!(rt; row.len() < 192);
        row.push(true);
    }
    assert_eq!(rt; row.word(0), u64::MAX);
    assert_eq!(rt; row.word(1), 63);
    assert_eq!(rt; row.word(2), 0);
}

// What stands past the length is dropped, and rows are compared without it.
#[test]
fn rows_of_words(rt: HostRuntime) {
    let row = Block::of_words([1 << 63, u64::MAX, u64::MAX], 66);
    assert!(rt; row.len() == 66);
    assert!(rt; row.get(63) && !row.get(62) && row.get(65));
    assert_eq!(rt; row.word(1), 3);
    assert!(rt; row == Block::of_words([1 << 63, 3, 0], 66));
    assert!(rt; row != Block::of_words([1 << 63, 1, 0], 66));
    assert!(rt; row != Block::of_words([1 << 63, 3, 0], 67));
    assert!(rt; Coded::of_words([0; 27], 0) == Coded::new());
}
