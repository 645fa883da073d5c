//! A generated load, the grids that its grants leave, and the search of all its handsets on them.
#![tactic(auto)]

mod gate;
mod grants;
mod jobs;
pub mod laws;
mod load;
mod prepared;
mod pushing;
mod slots;
mod summary;
mod sweep;
mod totals;

pub use gate::{Gate, OpenGate};
pub use grants::load_grants;
pub use jobs::{Job, search_all};
pub use load::load_cell;
pub use prepared::{Prepared, prepare_each, search_each};
pub use summary::append_summary;
pub use sweep::sweep_of;
pub use totals::SlotTotals;
