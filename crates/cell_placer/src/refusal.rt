//! What becomes of a grant.
use dci_fields::FieldFault;

/// A grant was written on the grid, at this watch of its handset's plan.
#[derive(Clone, Copy, Debug, PartialEq, Eq)]
pub struct Placed {
    /// The place of the watch in the plan.
    pub watch: u32,
}

/// Why a grant was not written.
#[derive(Clone, Copy, Debug, PartialEq, Eq)]
pub enum Refusal {
    /// The cell has no handset of that name.
    UnknownHandset,
    /// The handset has no set of that number.
    UnknownSet,
    /// In this slot the handset looks nowhere for such a grant.
    Unmonitored,
    /// The field values make no payload.
    Field(FieldFault),
    /// Each place where the handset looks for it is taken. This grant was accepted first of those that have a REG of
    /// the first such place.
    Overlap { earlier: u32 },
    /// As many grants as there is room for were accepted before.
    Full { room: u32 },
}

/// Why there is no desk for a slot.
#[derive(Clone, Copy, Debug, PartialEq, Eq)]
pub enum DeskFault {
    /// The common sets of the slot exceed a limit for the handset at this place: they have so many candidates and CCEs.
    CommonOver {
        handset: u16,
        candidates: u16,
        cces: u16,
    },
    /// There was no memory for it.
    NoMemory,
}
