//! How many bits tell so many things apart.
ghost use Rattle.std.specs.Prelude.{◌≡◌, ℕ, ◌^◌, ◌≤◌};
ghost use Rattle.alloc_fields.specs.Widths.{bits_for};

/// The least number of bits that tell `n` things apart.
pub fn bits_for(n: u32) -> u32
    requires { 1 ≤ n }
    ensures value { result ≡ bits_for n }
    ensures enough { n ≤ 2 ^ result }
    ensures least { (bits : ℕ) → n ≤ 2 ^ bits → result ≤ bits }
    ensures most { result ≤ 32 }
{
    for bits in 0..32 {
        if u64::from(n) <= 1 << bits {
            return bits;
        }
    }
    32
}
