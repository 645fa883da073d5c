//! Places of a control resource set.

/// One resource-element group: a block of 12 subcarriers in one symbol (3GPP TS 38.211, 7.3.2.2).
///
/// The symbol is counted from the first of the control resource set, the block from common block 0. REGs are ordered
/// by symbol, then block.
#[derive(Clone, Copy, Debug, Default, PartialEq, Eq, PartialOrd, Ord)]
pub struct Reg {
    /// The symbol.
    pub symbol: u8,
    /// The block.
    pub block: u16,
}

/// One place: a subcarrier in one symbol.
///
/// The symbol is counted from the first of the control resource set, the subcarrier from the first of common block 0.
#[derive(Clone, Copy, Debug, Default, PartialEq, Eq)]
pub struct Spot {
    /// The symbol.
    pub symbol: u8,
    /// The subcarrier.
    pub subcarrier: u16,
}
