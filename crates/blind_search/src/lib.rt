//! What a handset hears in a slot: the report of its plan's watches (3GPP TS 38.213, 10.1).
#![tactic(auto)]

pub mod laws;
mod searcher;

pub use searcher::Searcher;
