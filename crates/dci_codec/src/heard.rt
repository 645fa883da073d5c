//! What a handset hears at a watch.
use dci_fields::{Format, Values};

/// A format that was heard at a watch, with the fields that it shows.
#[derive(Debug, Drop, PartialEq, Eq)]
pub struct Heard {
    /// The number of the watch.
    pub watch: u32,
    /// The format.
    pub format: Format,
    /// The shown fields, in order.
    pub values: Values,
}
