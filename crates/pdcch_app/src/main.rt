//! Writes the downlink control region of one slot of a 5G NR carrier.
#![tactic(auto)]

mod arguments;
mod commands;
mod explaining;
mod files;
pub mod laws;
mod lines;
mod searching;
mod sweeping;
mod top;
mod words;
mod writing;

use outside::{FileShelf, StdSink};
use par_sweep::OpenGate;
use run_steps::{Stop, finish};
use std::env;
use std::process::ExitCode;
use top::exit_status;
use words::words_of;

#[cfg(test)]
mod tests;

fn main(rt: HostRuntime) -> ExitCode {
    let mut shelf = FileShelf::new(&rt);
    let mut out = StdSink::new(rt.stdout());
    let mut err = StdSink::new(rt.stderr());
    let code = match words_of(rt.alloc(), env::args(&rt)) {
        Ok(words) => exit_status(
            &rt,
            rt.alloc(),
            &OpenGate,
            &words,
            &mut shelf,
            &mut out,
            &mut err,
        ),
        Err(_) => finish(Err(Stop::OutOfMemory), &mut out, &mut err).code(),
    };
    ExitCode::from(code)
}
