//! Laws of resource indication values, as contracts of functions.
ghost use Rattle.std.specs.Prelude.{◌≡◌, ℕ, ◌≤◌, Some, None};
ghost use Rattle.alloc_fields.specs.Indication.{riv};
ghost use Rattle.alloc_fields.specs.Spans.{ValuesApart};

use crate::{riv, span};

/// In a bandwidth part of 1 to 275 blocks no two spans have the same value.
pub fn values_apart()
    ensures { ValuesApart }
{}

/// The span of a span's value is that span, wherever a start and a length have a value; without one there is no span.
pub fn span_of_riv(n: u16, start: u16, length: u16) -> Option<(u16, u16)>
    requires least { 1 ≤ n }
    requires most { n ≤ 275 }
    requires start { start ≤ 275 }
    ensures some { (number : ℕ) → riv n start length ≡ Some number → result ≡ Some (start, length) }
    ensures none { riv n start length ≡ None → result ≡ None }
{
    span(n, riv(n, start, length)?)
}
