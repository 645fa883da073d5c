//! The sizes of the formats that a handset monitors.

/// How many bits the payloads have that a handset monitors, each where some set of it monitors one.
#[derive(Clone, Copy, Debug, Default, PartialEq, Eq)]
pub struct Sizes {
    /// Formats 0_0 and 1_0 in common sets.
    pub common: Option<u16>,
    /// Formats 0_0 and 1_0 in the handset's own sets of fallback.
    pub fallback: Option<u16>,
    /// Format 0_1.
    pub up: Option<u16>,
    /// Format 1_1.
    pub down: Option<u16>,
    /// Whether the fallback formats take the common widths everywhere, since there would be four sizes.
    pub step4: bool,
}
