//! Why a draft is not made.
use std::alloc::AllocError;

/// Why a draft is not made.
#[derive(Debug, Clone, Copy, Drop)]
pub enum DraftFault {
    /// No memory.
    NoMemory,
    /// A part that no legal file has.
    Illegal,
}

impl From<AllocError> for DraftFault {
    fn from(_: AllocError) -> DraftFault {
        DraftFault::NoMemory
    }
}
