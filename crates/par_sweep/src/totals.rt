//! What a slot of the load comes to.

/// The totals of a slot: how many of its grants were placed, how many were refused for an overlap, and at how many watches
/// its handsets heard something.
#[derive(Clone, Copy, Debug, PartialEq, Eq)]
pub struct SlotTotals {
    /// The number of the frame.
    pub frame: u16,
    /// The number of the slot in the frame.
    pub slot: u16,
    /// How many grants were placed.
    pub placed: u32,
    /// How many grants were refused since others are in their way.
    pub overlapped: u32,
    /// At how many watches something was heard.
    pub heard: u32,
}
