//! How the values of a JSON file are judged and read, for any keys, places and faults: a file of another form gives these,
//! the rows of its objects and the values that they spell.
#![tactic(auto)]

mod error;
mod leaves;
mod lists;
mod objects;
mod texts;

pub use error::{FileFault, JsonError, value_of};
pub use leaves::{
    number_at, number_or_default_at, optional_number_at, required, truth_at, value_at, whole,
};
pub use lists::list_of;
pub use objects::is_object_of;
pub use texts::{bits_at, name_at, text};
