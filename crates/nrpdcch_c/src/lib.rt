//! The proved layers behind a header for C, C++ and Python: `include/nrpdcch.h` says what each call answers.
#![tactic(auto)]

mod carrier;
mod fault;
mod handle;
mod heard;
mod hearing;
pub mod laws;
mod loose;
mod numbers;
mod opening;
mod planning;
mod points;
mod searching;
mod silence;
mod spelling;
mod status;
mod stop;
mod texts;
mod watch;
