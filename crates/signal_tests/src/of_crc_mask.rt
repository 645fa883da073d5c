//! Masked blocks whose bits are known.
ghost use Rattle.std.specs.Prelude.{◌≤◌, length};

use crate::bits::row_of;
use bits_core::Payload;
use crc_mask::{attach, strip};

/// Bits in no order.
const DIGITS: &[u8; 128] = b"1010001000011000100001000011001000100001111111000011111001010110\
    0111110011001111101100100100111001110111110000000010110011100111";

/// The remainder of 24 ones, then `payload`, times D^24, by a plain division one bit at a time.
fn divided(payload: &Payload) -> u32
    requires { length payload.now ≤ 128 }
{
    let mut register = 0u32;
    for place in 0..24 + payload.len() {
        let bit = place < 24 || payload.get(place - 24);
        let left = register >> 23 == 1;
        register = register << 1 & 0xff_ffff;
        if left != bit {
            register ^= 0xb2_b117;
        }
    }
    register
}

#[test]
fn parities_are_those_of_a_plain_division(rt: HostRuntime) {
    for len in 1..=128 {
        let payload: Payload = row_of(&DIGITS[..len]);
        let block = attach(&payload, 0x1234);
        assert_eq!(rt; block.number_at(len, 24), divided(&payload) ^ 0x1234);
        assert!(rt; strip(&block, 0x1234) == Some(payload));
        assert!(rt; strip(&block, 0x1235).is_none());
    }
}

#[test]
fn masked_blocks_are_the_known_ones(rt: HostRuntime) {
    let blocks: [(&[u8], u16, u32); 6] = [
        (
            b"100001100101001000101010000110001101011",
            17,
            0b1110_0011_1011_1100_1100_1111,
        ),
        (
            b"100001100101001000101010000110001101010",
            17,
            0b0101_0001_0000_1101_1101_1000,
        ),
        (
            b"00000000000000000000000",
            1,
            0b1001_0100_0101_1110_0011_0011,
        ),
        (
            b"111111111111111111111111111111111111111111111111111111111111111111111111111111111111",
            65519,
            0b0010_1100_1011_1000_1101_0110,
        ),
        (b"101010101010", 4660, 0b1001_1100_1110_0110_1001_1011),
        (b"1", 1, 0b1101_0111_0111_0101_1001_0100),
    ];
    for (text, rnti, parity) in blocks {
        assert!(rt; text.len() <= 128);
        let payload: Payload = row_of(text);
        let mut block = attach(&payload, rnti);
        assert_eq!(rt; block.number_at(text.len(), 24), parity);
        assert!(rt; strip(&block, rnti) == Some(payload));
        assert!(rt; strip(&block, rnti ^ 1).is_none());
        let first = block.get(0);
        block.set(0, !first);
        assert!(rt; strip(&block, rnti).is_none());
    }
}

#[test]
fn parities_differ_by_the_changed_bit(rt: HostRuntime) {
    let parity = attach(&row_of(b"1010"), 0).number_at(4, 24);
    assert_eq!(rt;
        parity ^ attach(&row_of(b"1011"), 0).number_at(4, 24),
        0xb2_b117
    );
    assert_eq!(rt;
        parity ^ attach(&row_of(b"1000"), 0).number_at(4, 24),
        0xd7_d339
    );
}
