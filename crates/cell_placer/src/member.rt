//! What a desk knows of a handset.
use arrayvec::ArrayVec;
use monitor_plan::Outline;
use rrc_settings::Name;

/// A handset in one slot.
#[derive(Debug, Drop)]
pub struct Member {
    /// Its name.
    pub name: Name,
    /// The numbers of its search space sets.
    pub sets: ArrayVec<u16, 10>,
    /// Where it looks in the slot.
    pub plan: Outline,
}

/// A grant that was accepted.
#[derive(Clone, Copy, Debug, PartialEq, Eq)]
pub struct Accepted {
    /// The number of the call, from 0 on.
    pub call: u32,
    /// The place of its handset in the list of the cell.
    pub handset: usize,
    /// The place of its watch in the plan of the handset.
    pub watch: usize,
}
