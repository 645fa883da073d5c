//! The grants of one slot from the bytes of a JSON text: the list of grants, or the first fault with its place and
//! reason.
#![tactic(auto)]

mod fields;
mod format;
mod grants;
mod leaves;
mod place;
mod reading;
mod same;
mod word;

pub use grants::{Grant, GrantList};
pub use place::{GrantFault, GrantKey, GrantPlace, GrantsError};
pub use reading::read_grants;
pub use word::FieldWord;
