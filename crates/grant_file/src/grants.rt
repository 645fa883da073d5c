//! The grants of one slot.
use crate::FieldWord;
use dci_fields::{Format, Given};
use rrc_settings::{Items, Name};

/// What a handset is told in one slot, and where: one piece of downlink control information that is to be sent.
#[derive(Debug, Drop, PartialEq, Eq)]
pub struct Grant {
    /// The name of the handset.
    pub handset: Name,
    /// The number of the search space set.
    pub set: u16,
    /// The aggregation level: 1, 2, 4, 8 or 16.
    pub level: u16,
    /// The number of the candidate, where one is asked for.
    pub candidate: Option<u16>,
    /// The first symbol, where one is asked for.
    pub symbol: Option<u16>,
    /// The format.
    pub format: Format,
    /// The values of fields; a grant that was read has them in ascending order of their words.
    pub given: Items<Given>,
    /// The words of these fields, in the same places.
    pub words: Items<FieldWord>,
}

/// The grants of one slot, in order.
#[derive(Debug, Drop, PartialEq, Eq)]
pub struct GrantList {
    /// The number of the frame.
    pub frame: u16,
    /// The number of the slot in the frame.
    pub slot: u16,
    /// The grants.
    pub grants: Items<Grant>,
}
