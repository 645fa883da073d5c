//! What is wrong with the text of a table.

/// The first fault of a table's text. Places are byte offsets from the start of the text.
#[derive(Clone, Copy, Debug, PartialEq, Eq)]
pub enum TableFault {
    /// A byte that is neither a decimal digit nor a separator.
    BadByte { at: usize },
    /// A number that no place of the table has, with the place of its first digit. The value is held at 65,535.
    TooLarge { at: usize, value: u16 },
    /// A number that stood before.
    Repeated { value: u16 },
    /// The text ends with fewer numbers than the table has.
    Count { found: u16 },
}
