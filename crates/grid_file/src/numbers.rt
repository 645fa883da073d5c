//! Words and numbers of the head.
ghost use Rattle.std.specs.Prelude.{◌≤◌, [], IfOk, IfErr, length};
ghost use Rattle.grid_file.specs.Fields.{IsField, IsRange, IsWord, LeavesFieldAt, LeavesWord};

use crate::GridFault;
use crate::bytes::{digit_at, has};

/// A number that was read, and the place after its last digit.
#[derive(Clone, Copy)]
pub(crate) struct Number {
    pub(crate) value: u16,
    pub(crate) next: usize,
}

/// Reads a word from place `at` on. Answers the place after it.
pub(crate) fn read_word(bytes: &[u8], at: usize, word: &[u8]) -> Result<usize, GridFault>
    requires { at ≤ length bytes.now }
    ensures read { IfOk result (λ next. IsWord bytes.now at word.now next) }
    ensures leaves { IfErr result (λ fault. LeavesWord word.now bytes.now at fault.at) }
{
    for (index, byte) in word.iter().enumerate() {
        if !has(bytes, at + index, *byte) {
            return Err(GridFault { at: at + index });
        }
    }
    Ok(at + word.len())
}

/// Reads a number of at least `least` and below `limit` from place `at` on, in digits without leading zeros.
fn read_number(bytes: &[u8], at: usize, least: u16, limit: u16) -> Result<Number, GridFault>
    requires at { at ≤ length bytes.now }
    requires range { IsRange least limit }
    ensures read { IfOk result (λ number. IsField [] bytes.now at least limit number.value number.next) }
    ensures leaves { IfErr result (λ fault. LeavesFieldAt [] least limit bytes.now at fault.at) }
{
    let Some(first) = digit_at(bytes, at) else {
        return Err(GridFault { at });
    };
    if first < least.min(1) || first >= limit {
        return Err(GridFault { at });
    }
    let mut number = Number {
        value: first,
        next: at + 1,
    };
    while let Some(digit) = digit_at(bytes, number.next) {
        let longer = 10 * number.value + digit;
        if number.value == 0 || longer >= limit {
            return Err(GridFault { at: number.next });
        }
        number = Number {
            value: longer,
            next: number.next + 1,
        };
    }
    if number.value < least {
        return Err(GridFault { at: number.next });
    }
    Ok(number)
}

/// Reads a word and a number of at least `least` and below `limit` from place `at` on.
pub(crate) fn read_field(
    bytes: &[u8],
    at: usize,
    word: &[u8],
    least: u16,
    limit: u16,
) -> Result<Number, GridFault>
    requires at { at ≤ length bytes.now }
    requires range { IsRange least limit }
    ensures read { IfOk result (λ number. IsField word.now bytes.now at least limit number.value number.next) }
    ensures leaves { IfErr result (λ fault. LeavesFieldAt word.now least limit bytes.now at fault.at) }
{
    let next = read_word(bytes, at, word)?;
    read_number(bytes, next, least, limit)
}
