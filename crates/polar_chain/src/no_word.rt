//! Why received bits are no block's code.

/// Why no block has the received bits as its code.
#[derive(Clone, Copy, Debug, PartialEq, Eq)]
pub enum NoWord {
    /// A bit is sent twice and was received as both 0 and 1.
    Repeat {
        /// The place of the first such repeat among the received bits.
        at: usize,
    },
    /// The repeats agree, but no block has this code.
    Frozen,
}
