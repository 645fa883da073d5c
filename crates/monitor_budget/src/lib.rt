//! Which search space sets a handset looks at in a slot, and how many candidates and CCEs these have (3GPP TS 38.213, 10.1).
#![tactic(auto)]

mod allotment;
mod calendar;
mod candidates;
mod counted;
mod counting;
mod exceeding;
mod limits;
mod marks;
mod same;
mod scrambling;
mod set_counting;
mod sizes;
mod space;
mod tally;

pub use allotment::{Allotment, CommonOver, allot};
pub use candidates::Candidate;
pub use space::{Space, handset_in};
