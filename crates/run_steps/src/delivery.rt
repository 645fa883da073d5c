//! Writes the answer of a run.
ghost use Rattle.std.specs.Prelude.{◌≡◌};
ghost use Rattle.run_steps.specs.Ran.{IsDelivered, Finishes};
ghost use Rattle.run_steps.specs.Steps.{answered};

use crate::answers::Answer;
use crate::lines::MEMORY;
use crate::statuses::Status;
use crate::stops::Stop;
use outside::{Sink, put_all};

/// Writes the text of the output, then that of the error output; the first fault ends it.
fn deliver<K: Sink, L: Sink>(
    status: Status,
    out_text: &[u8],
    err_text: &[u8],
    out: &mut K,
    err: &mut L,
) -> Status
    requires { status ≡ Status.WriteFault → ⊥ }
    ensures { IsDelivered (record { status = status; out = out_text.now; err = err_text.now }) result (K.shows out.old)
        (K.shows out.new) (L.shows err.old) (L.shows err.new) }
{
    let Ok(()) = put_all(out, out_text) else {
        return Status::WriteFault;
    };
    let Ok(()) = put_all(err, err_text) else {
        return Status::WriteFault;
    };
    status
}

/// Ends a run with what its steps answered: writes it to the output and the error output, and answers how the run ended.
pub fn finish<K: Sink, L: Sink>(answer: Result<Answer, Stop>, out: &mut K, err: &mut L) -> Status
    ensures { Finishes (answered answer) result (K.shows out.old) (K.shows out.new) (L.shows err.old) (L.shows err.new) }
{
    match answer {
        Ok(answer) | Err(Stop::Ended(answer)) => {
            deliver(answer.status(), answer.out(), answer.err(), out, err)
        }
        Err(Stop::OutOfMemory) => deliver(Status::NoMemory, b"", MEMORY, out, err),
    }
}
