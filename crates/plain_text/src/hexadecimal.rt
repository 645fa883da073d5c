//! Hexadecimal numbers at the end of a text.
ghost use Rattle.std.specs.Prelude.{◌≡◌, ◌<◌};
ghost use Rattle.plain_text.specs.Appending.{Appends};
ghost use Rattle.plain_text.specs.Hexadecimal.{hex_digit, hex_word};

use crate::push_text;
use std::alloc::AllocError;

/// The character of a digit from 0 to 15.
fn hex_digit(digit: u16) -> u8
    requires { digit < 16 }
    ensures { result ≡ hex_digit digit }
{
    let digit = digit as u8;
    if digit < 10 {
        b'0' + digit
    } else {
        b'a' - 10 + digit
    }
}

/// Appends a number in four lower-case hexadecimal digits.
#[tactic(auto, unfolding(crate::specs::Hexadecimal::hex_word))]
pub fn push_hex_word(out: &mut Vec<u8>, number: u16) -> Result<(), AllocError>
    ensures { Appends out.old.items out.new.items (hex_word number) result }
{
    let digits = [
        hex_digit(number / 4096),
        hex_digit(number / 256 % 16),
        hex_digit(number / 16 % 16),
        hex_digit(number % 16),
    ];
    push_text(out, &digits)
}
