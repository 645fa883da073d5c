//! A candidate as it counts.

/// What tells counted candidates apart: candidates that have all of this in common count once.
#[derive(Clone, Copy, Debug, Default, PartialEq, Eq)]
pub(crate) struct Counted {
    /// The number of the CORESET.
    pub coreset: u16,
    /// The first symbol.
    pub symbol: u8,
    /// The first CCE.
    pub start: u16,
    /// The aggregation level.
    pub level: u8,
    /// What the scrambling begins with.
    pub scramble: u32,
    /// The size of the payload.
    pub size: u16,
}
