//! Why bytes are not read as a grid.

/// The bytes are the text of no grid. `at` is the length of their longest beginning with which some grid's text begins.
#[derive(Clone, Copy, Debug, PartialEq, Eq)]
pub struct GridFault {
    pub at: usize,
}

/// Why bytes are not read as a grid.
#[derive(Clone, Copy, Debug, PartialEq, Eq)]
pub enum GridError {
    /// They are the text of no grid.
    Fault(GridFault),
    /// There is not enough memory.
    NoMemory,
}
