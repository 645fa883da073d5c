//! What a register tells beyond its own 31 bits: the next 28 of its sequence at once.
ghost use Rattle.std.specs.Prelude.{◌≡◌, ◌+◌, ◌^◌, ◌<◌, ◌≤◌, ℕ, Bool};
ghost use Rattle.gold_scrambler.specs.Gold.{state1, state2, x1, x2};
ghost use Rattle.gold_scrambler.specs.Stretches.{HasBits};

/// How many bits come in at once: no bit before the 28th depends on another that comes in.
pub(crate) const TURN: u32 = 28;

/// The 31 bits of a register.
const REGISTER: u64 = (1 << 31) - 1;

/// x1(n) to x1(n + 58), low place first, of the first register that begins with x1(n).
pub(crate) fn first_window(register: u32) -> u64
    requires { register < 2 ^ 31 }
    ensures { (n : ℕ) → register ≡ state1 n → HasBits x1 n 59 result }
{
    let known = u64::from(register);
    known | (known >> 3 ^ known) << 31
}

/// x2(n) to x2(n + 58), low place first, of the second register that begins with x2(n).
pub(crate) fn second_window(register: u32) -> u64
    requires { register < 2 ^ 31 }
    ensures { (c n : ℕ) → c < 2 ^ 31 → register ≡ state2 c n → HasBits (x2 c) n 59 result }
{
    let known = u64::from(register);
    known | (known >> 3 ^ known >> 2 ^ known >> 1 ^ known) << 31
}

/// The register `count` steps on from the one whose window it is.
pub(crate) fn register_after(window: u64, count: u32) -> u32
    requires { count ≤ 28 }
    ensures small { result < 2 ^ 31 }
    ensures bits { (x : ℕ → Bool) (n : ℕ) → HasBits x n 59 window → HasBits x (n + count) 31 result }
{
    (window >> count & REGISTER) as u32
}
