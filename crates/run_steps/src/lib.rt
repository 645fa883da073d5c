//! The steps of a run: what it is to leave, as one outcome over what its fetches give, the fetch of one file, the
//! refusals, and the delivery of the answer.
#![tactic(auto)]

mod answers;
mod delivery;
pub mod laws;
mod lines;
mod statuses;
mod stops;
mod takes;
mod texts;

pub use answers::Answer;
pub use delivery::finish;
pub use statuses::Status;
pub use stops::{Stop, refusal};
pub use takes::take;
pub use texts::Text;
