//! When a search space set is monitored, and where its candidates start (3GPP TS 38.213, 10.1).
#![tactic(auto)]

mod calendar;
pub mod laws;
mod starts;

pub use calendar::is_monitored;
pub use starts::start_cce;
