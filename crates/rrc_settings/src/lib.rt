//! The settings of a cell and its handsets (3GPP TS 38.331, 6.3.2): their checks in a fixed order, and the cells that pass them.
#![tactic(auto)]

mod conflicts;
mod coreset_conflicts;
mod field_ranges;
mod groups;
mod items;
mod legal;
mod levels;
mod name;
mod place;
mod ranges;
mod same;
mod set_conflicts;
mod settings;
mod words;

pub use groups::{group_block, has_bit};
pub use items::Items;
pub use legal::Cell;
pub use levels::{LEVELS, is_level};
pub use name::Name;
pub use place::{FaultPlace, Place, Reason, SettingsFault, Step};
pub use same::{Same, is_same};
pub use settings::{
    Allocation, Bwp, Codebook, Coreset, DownlinkFields, Handset, Interleave, RawCell, SearchSet,
    SetKind, UplinkFields,
};
pub use words::Key;
