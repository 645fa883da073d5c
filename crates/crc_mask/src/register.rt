//! The parity register of 24 bits.
ghost use Rattle.std.specs.Prelude.{◌≡◌, ◌^◌, ◌<◌, ◌≤◌};
ghost use Rattle.bits_core.specs.Bits.{bits_of};
ghost use Rattle.crc_mask.specs.Parity.{parity};
ghost use Rattle.crc_mask.specs.Register.{advanced, fed};

use crate::table::entry;
use bits_core::Payload;

/// The low 24 bits of the generator.
const GENERATOR: u32 = 0xb2_b117;

/// The register once 24 ones have gone in, before the payload.
const AFTER_ONES: u32 = 0x32_e241;

/// The register once one more bit has gone in: moved up by one, plus the generator where the bit that left and the
/// one that came differ.
fn advance(register: u32, bit: bool) -> u32
    requires { register < 2 ^ 24 }
    ensures below { result < 2 ^ 24 }
    ensures bits { bits_of 24 result ≡ advanced (bits_of 24 register) bit }
{
    let moved = (register << 1) & 0xff_ffff;
    let left = register >> 23 == 1;
    if left == bit {
        moved
    } else {
        moved ^ GENERATOR
    }
}

/// The register once the eight bits of `byte` have gone in, most significant first: moved up by eight, plus what the table
/// has for the eight bits that left, each added to the one that came.
fn advance_byte(register: u32, byte: u32) -> u32
    requires register { register < 2 ^ 24 }
    requires byte { byte < 256 }
    ensures below { result < 2 ^ 24 }
    ensures bits { bits_of 24 result ≡ fed (bits_of 24 register) (bits_of 8 byte) 8 }
{
    let moved = (register << 8) & 0xff_ffff;
    moved ^ entry((register >> 16) ^ byte)
}

/// The 24 parity bits of a payload, as a number.
pub(crate) fn parity_of(payload: &Payload) -> u32
    ensures below { result < 2 ^ 24 }
    ensures bits { bits_of 24 result ≡ parity payload.now }
{
    let bytes = payload.len() / 8;
    let mut register = AFTER_ONES;
    for at in 0..bytes {
        register = advance_byte(register, payload.number_at(8 * at, 8));
    }
    for place in 8 * bytes..payload.len() {
        register = advance(register, payload.get(place));
    }
    register
}
