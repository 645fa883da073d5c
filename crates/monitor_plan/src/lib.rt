//! The plan of a handset in a slot: where it looks for downlink control information, and for which formats (3GPP TS
//! 38.213, 10.1).
#![tactic(auto)]

mod formats;
pub mod laws;
mod monitored;
mod outline;
mod plan;
mod same;
mod set_formats;
mod set_watches;
mod watch;

pub use outline::Outline;
pub use plan::{Plan, PlanFault};
pub use watch::Watch;
