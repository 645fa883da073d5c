//! Facts on lists, ranges, tests and counting that the layers' proofs share; no code.
#![tactic(auto)]
