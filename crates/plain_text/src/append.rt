//! Bytes and decimal numbers at the end of a text.
ghost use Rattle.std.specs.Prelude.{decimal};
ghost use Rattle.plain_text.specs.Appending.{Appends};

use std::alloc::{AllocError, Global};

/// Appends some bytes.
pub fn push_text(out: &mut Vec<u8>, bytes: &[u8]) -> Result<(), AllocError>
    ensures { Appends out.old.items out.new.items bytes.now result }
{
    out.extend_from_slice(bytes)
}

/// Appends a number in decimal digits without leading zeros.
pub fn push_number(alloc: Global, out: &mut Vec<u8>, number: u64) -> Result<(), AllocError>
    ensures { Appends out.old.items out.new.items (decimal number) result }
{
    let digits = format!(in alloc; "{number}")?;
    push_text(out, digits.as_bytes())
}
