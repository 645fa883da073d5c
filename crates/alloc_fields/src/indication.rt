//! Resource indication values: one number for a start and a length.
ghost use Rattle.std.specs.Prelude.{◌≡◌, ℕ, ◌<◌, ◌≤◌, ◌↔◌, Some, IfSome};
ghost use Rattle.alloc_fields.specs.Indication.{riv};

/// The resource indication value of `length` blocks from block `start` on, in a bandwidth part of `n` blocks; None
/// exactly where there is no block, or one outside (3GPP TS 38.214, 5.1.2.2.2).
#[tactic(auto, unfolding(crate::specs::Indication::riv))]
pub fn riv(n: u16, start: u16, length: u16) -> Option<u32>
    requires least { 1 ≤ n }
    requires most { n ≤ 275 }
    requires start { start ≤ 275 }
    ensures { result ≡ riv n start length }
{
    let (n, start, length) = (u32::from(n), u32::from(start), u32::from(length));
    if length == 0 || start + length > n {
        None
    } else if length - 1 <= n / 2 {
        Some(n * (length - 1) + start)
    } else {
        Some(n * (n - length + 1) + (n - 1 - start))
    }
}

/// The one start and length whose resource indication value is `number`, None exactly where there is none.
pub fn span(n: u16, number: u32) -> Option<(u16, u16)>
    requires least { 1 ≤ n }
    requires most { n ≤ 275 }
    ensures { (start length : ℕ) → (result ≡ Some (start, length)) ↔ (riv n start length ≡ Some number) }
{
    let (start, length) = candidate(n, number)?;
    if riv(n, start, length) == Some(number) {
        Some((start, length))
    } else {
        None
    }
}

/// The only start and length that may have this value: a short span has its value's quotient by `n` as its length but
/// one, and its rest as its start; a long one is counted from both ends.
fn candidate(n: u16, number: u32) -> Option<(u16, u16)>
    requires least { 1 ≤ n }
    requires most { n ≤ 275 }
    ensures only { (start length : ℕ) → riv n start length ≡ Some number → result ≡ Some (start, length) }
    ensures start { IfSome result (λ span. span.0 ≤ 275) }
{
    let blocks = u32::from(n);
    let (quotient, rest) = (number / blocks, (number % blocks) as u16);
    if quotient > blocks {
        return None;
    }
    let quotient = quotient as u16;
    if rest + quotient < n {
        Some((rest, quotient + 1))
    } else {
        Some((n - 1 - rest, n - quotient + 1))
    }
}
