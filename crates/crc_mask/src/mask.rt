//! Parity bits attached to a payload, and taken off again.
ghost use Rattle.std.specs.Prelude.{◌≡◌, ◌+◌, ◌≤◌, ◌↔◌, Bool, List, length};
ghost use Rattle.crc_mask.specs.Parity.{masked};

use crate::register::parity_of;
use bits_core::{Block, Payload};

/// The payload with its 24 parity bits, of which the last 16 are masked by `rnti`.
pub fn attach(payload: &Payload, rnti: u16) -> Block
    ensures block { result ≡ masked payload.now rnti }
    ensures length { length result ≡ length payload.now + 24 }
{
    let mut block = Block::of_words([payload.word(0), payload.word(1), 0], payload.len());
    block.append_number(24, parity_of(payload) ^ u32::from(rnti));
    block
}

/// The payload whose masked parity for `rnti` ends `bits`, or `None` where the last 24 bits are not that parity.
pub fn strip(bits: &Block, rnti: u16) -> Option<Payload>
    requires least { 24 ≤ length bits.now }
    requires most { length bits.now ≤ 152 }
    ensures { (p : List Bool) → (result ≡ Some p) ↔ (masked p rnti ≡ bits.now) }
{
    let size = bits.len() - 24;
    let payload = Payload::of_words([bits.word(0), bits.word(1)], size);
    if attach(&payload, rnti).slice_eq(bits) {
        Some(payload)
    } else {
        None
    }
}
