//! Field values as they are asked for, and what may be wrong with them.
use crate::FieldName;

/// A field value that is asked for: its name, where its word names a field, and its value.
#[derive(Clone, Copy, Debug, PartialEq, Eq)]
pub struct Given {
    /// The field, None where its word names none.
    pub name: Option<FieldName>,
    /// The value.
    pub value: u64,
}

/// Why field values make no payload.
#[derive(Clone, Copy, Debug, PartialEq, Eq)]
pub enum FieldFault {
    /// The value at this place is of no field that the format lets one choose.
    Unknown { at: usize },
    /// The value at this place does not fit the width of its field.
    TooLarge { at: usize, width: u32 },
    /// The frequency assignment of format 1_0 is all ones, which would make a PDCCH order.
    AllOnes,
}
