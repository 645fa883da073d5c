//! Grants that are read, and grants that are refused at a place for a reason.
ghost use Rattle.std.specs.Prelude.{◌≤◌};

mod faults;
mod values;

use crate::words::reason_words;
use grant_file::{GrantFault, GrantPlace, GrantsError, read_grants};
use std::alloc::{AllocError, Global};
use std::test::Fail;

/// Two grants. The members of the first one's fields stand in another order than that of their words.
pub const GRANTS: &str =
    r#"{"frame":7,"slot":19,"grants":[{"handset":"alpha","set":1,"level":8,"candidate":2,"symbol":3,"format":"1_0","fields":{"tdra":2,"fdra":101}},{"handset":"beta","set":39,"level":1,"format":"order","fields":{"zeta":18446744073709551615,"colour":1,"a_0":0}}]}"#;

/// A place, its steps joined by `/`. That of the whole is `file`.
fn place_words(alloc: Global, place: &GrantPlace) -> Result<String, AllocError> {
    let key = place.key.text();
    match place.grant {
        None if key.is_empty() => String::from_str(alloc, "file"),
        None => String::from_str(alloc, key),
        Some(grant) if key.is_empty() => format!(in alloc; "grants/{grant}"),
        Some(grant) => format!(in alloc; "grants/{grant}/{key}"),
    }
}

/// A fault's place and reason in words.
fn words_of(alloc: Global, fault: &GrantFault) -> Result<String, AllocError> {
    let place = place_words(alloc, &fault.place)?;
    let reason = reason_words(fault.reason);
    format!(in alloc; "{place}: {reason}")
}

/// The words of the fault that bytes have, and nothing where they have none.
pub fn refusal_of(alloc: Global, mu: u16, bytes: &[u8]) -> Result<String, Fail>
    requires { mu ≤ 3 }
{
    match read_grants(alloc, mu, bytes) {
        Ok(_list) => Ok(String::new(alloc)),
        Err(error) => match error {
            GrantsError::Fault(fault) => Ok(words_of(alloc, &fault)?),
            GrantsError::NoMemory => Err("no memory")?,
        },
    }
}

/// The words of the fault of the two grants after an edit.
pub fn refusal_after(alloc: Global, mu: u16, old: &str, new: &str) -> Result<String, Fail>
    requires { mu ≤ 3 }
{
    let text = GRANTS.replace(alloc, old, new)?;
    refusal_of(alloc, mu, text.as_str().as_bytes())
}
