//! The texts of a slot: what the handsets heard in it, what was heard at one watch or why nothing, and why a grant was refused.
#![tactic(auto)]

mod explain;
mod head;
mod refusal;
mod report;

pub use explain::append_explain;
pub use head::append_head;
pub use refusal::append_refusal;
pub use report::append_report;
