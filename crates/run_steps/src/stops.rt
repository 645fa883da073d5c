//! Why a run stops before its job is done.
ghost use Rattle.std.specs.Prelude.{◌≡◌, ◌++◌, true, false, IfOk};
ghost use Rattle.run_steps.specs.declared.stops.Stop.TheVariants.{OutOfMemory};
ghost use Rattle.run_steps.specs.Outcome.{is_done, is_cause, refused};
ghost use Rattle.run_steps.specs.Steps.{IsStop};

use crate::answers::Answer;
use crate::statuses::Status;
use bits_core::NoMemory;
use std::alloc::{AllocError, AllocFailed, Global};

/// Why a run stops before its job is done.
#[derive(Drop)]
pub enum Stop {
    /// Memory ran out.
    OutOfMemory,
    /// A refusal.
    Ended(Answer),
}

impl From<AllocError> for Stop {
    ghost from_gives = { λ _ stop. stop ≡ OutOfMemory };

    fn from(_error: AllocError) -> Stop {
        Stop::OutOfMemory
    }
}

impl<T: Drop> From<AllocFailed<T>> for Stop {
    ghost from_gives = { λ _ stop. stop ≡ OutOfMemory };

    fn from(_error: AllocFailed<T>) -> Stop {
        Stop::OutOfMemory
    }
}

impl From<NoMemory> for Stop {
    ghost from_gives = { λ _ stop. stop ≡ OutOfMemory };

    fn from(_error: NoMemory) -> Stop {
        Stop::OutOfMemory
    }
}

/// The refusal with a status and one line, which is given without its line feed.
pub fn refusal(alloc: Global, status: Status, mut line: Vec<u8>) -> Stop
    requires cause { is_cause status ≡ true }
    requires refusal { is_done status ≡ false }
    ensures { IsStop (refused status line.items) result }
{
    match line.push(b'\n') {
        Ok(()) => Stop::Ended(Answer::new(status, Vec::new(alloc), line)),
        Err(_) => Stop::OutOfMemory,
    }
}

fn line_of(alloc: Global, words: &[u8], name: &str) -> Result<Vec<u8>, AllocError>
    ensures { IfOk result (λ line. line.items ≡ words.now ++ name.now) }
{
    let mut line = Vec::from_slice(alloc, words)?;
    line.extend_from_slice(name.as_bytes())?;
    Ok(line)
}

/// The refusal with a status and one line, which ends in the name of a file.
pub fn refusal_naming(alloc: Global, status: Status, words: &[u8], name: &str) -> Stop
    requires cause { is_cause status ≡ true }
    requires refusal { is_done status ≡ false }
    ensures { IsStop (refused status (words.now ++ name.now)) result }
{
    match line_of(alloc, words, name) {
        Ok(line) => refusal(alloc, status, line),
        Err(_) => Stop::OutOfMemory,
    }
}
