//! The length of a word as a power of two (3GPP TS 38.212, 5.3.1).
ghost use Rattle.bits_core.specs.CodeLengths.{is_code_length};
ghost use Rattle.std.specs.Prelude.{◌≡◌, ◌^◌, ◌≤◌, IsTrue};

/// The exponent of two of the length of a word.
pub(crate) fn exponent_of(len: usize) -> u32
    requires { IsTrue (is_code_length len) }
    ensures power { 2 ^ result ≡ len }
    ensures least { 5 ≤ result }
    ensures most { result ≤ 9 }
{
    match len {
        32 => 5,
        64 => 6,
        128 => 7,
        256 => 8,
        _ => 9,
    }
}
