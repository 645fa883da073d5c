//! The two tables of the polar code as their files spell them: each a permutation by its type.
#![tactic(auto)]

mod fault;
pub mod laws;
mod reader;
mod tables;

pub use fault::TableFault;
pub use tables::{
    InputOrder, Permutation, Reliability, Tables, read_input_order, read_reliability,
};
