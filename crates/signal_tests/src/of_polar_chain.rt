//! Codes that are known from outside, and blocks that come back.
use crate::bits::row_of;
use polar_chain::{Code, NoWord};
use polar_sets::enough;
use std::test::Fail;
use test_drafts::tables::tables_of;

/// Blocks, their codes, and what decoding says of each where the bit at a place is another.
const SPREAD: [(&[u8], &[u8], usize, Option<NoWord>); 6] = [
    (
        b"101000100001100010000100001100100010000111111100001111100101011",
        b"110101111010101010100110000001100110110010101100011010000110101001010001001101010110110001100000000100111000",
        54,
        Some(NoWord::Frozen),
    ),
    (
        b"001111100110011111011001001001110011101111100000000101100111001",
        b"001011111101001111101100011100111101001001101001010111100000110110111000111011100000001010011100101110110100001110010100011110111101011111000100101010001010100001010010100010011100011100101010111110000111111110000000",
        108,
        Some(NoWord::Frozen),
    ),
    (
        b"1111011000010010000010001011110011111000",
        b"110010110100111000111100000111010011111101001000101101100100",
        30,
        Some(NoWord::Frozen),
    ),
    (
        b"111000100101101010001001100111011110000101010110010101101110000001011000000100010101110011100010000010011000",
        b"100000101101000111001101100000111110111000101100000001000000010001100001011100010010000011001010111001100000",
        54,
        None,
    ),
    (
        b"010010011011",
        b"001101000000100010001001000000",
        15,
        Some(NoWord::Frozen),
    ),
    (
        b"1010101011100100100101010011000",
        b"0101101111010110101010001101101110010110111010101001101010101010010110",
        69,
        Some(NoWord::Repeat { at: 69 }),
    ),
];

// Each code, and what is said where one of its bits is changed: none is said where another block has that code.
#[test]
fn codes_of_spread_tables(rt: HostRuntime) -> Result<(), Fail> {
    let tables = tables_of(rt.alloc(), (11, 37), (3, 45))?;
    for (text, sent, place, said) in SPREAD {
        assert!(rt; 1 <= text.len() && text.len() <= 164);
        assert!(rt; place < sent.len() && sent.len() <= 1728);
        assert!(rt; enough(text.len(), sent.len()));
        let code = Code::of(&tables, text.len(), sent.len());
        let block = row_of(text);
        let mut coded = row_of(sent);
        assert!(rt; code.encode(&block) == coded);
        assert!(rt; code.decode(&coded) == Ok(block));
        coded.set(place, !coded.get(place));
        assert!(rt; code.decode(&coded).err() == said);
    }
    Ok(())
}

// Each way of sending gives the block back, whatever the table's order.
#[test]
fn blocks_come_back(rt: HostRuntime) -> Result<(), Fail> {
    let text = b"100001100101001000101010000110001101011111000111011110011001111";
    for reliability in [(0, 1), (1023, 1023)] {
        let tables = tables_of(rt.alloc(), reliability, (0, 1))?;
        for sent in [108, 216, 864] {
            assert!(rt; enough(63, sent));
            let code = Code::of(&tables, 63, sent);
            let block = row_of(text);
            assert!(rt; code.decode(&code.encode(&block)) == Ok(block));
        }
    }
    Ok(())
}

// One copy of a bit that is sent twice is changed, or both: no block has that code.
#[test]
fn repeats(rt: HostRuntime) -> Result<(), Fail> {
    let text = b"100001100101001000101010000110001101011111000111011110011001111";
    let tables = tables_of(rt.alloc(), (0, 1), (0, 1))?;
    assert!(rt; enough(63, 864));
    let code = Code::of(&tables, 63, 864);
    let mut coded = code.encode(&row_of(text));
    coded.set(600, !coded.get(600));
    assert!(rt; code.decode(&coded).err() == Some(NoWord::Repeat { at: 600 }));
    coded.set(88, !coded.get(88));
    assert!(rt; code.decode(&coded).err() == Some(NoWord::Frozen));
    Ok(())
}
