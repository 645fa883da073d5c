//! What a run answers: a status and two texts.
use crate::statuses::Status;
use std::marker::Model;

/// A status that the words and the files decide, with the text of the output and that of the error output.
#[derive(Drop)]
pub struct Answer {
    status: Status,
    out: Vec<u8>,
    err: Vec<u8>,
}

impl Model for Answer {
    ghost use Rattle.run_steps.specs.Outcome.{Outcome, IsOutcome};

    ghost Value = { Outcome };

    ghost view = { λ a. record { status = a.status; out = a.out.items; err = a.err.items } };

    ghost invariant = { λ a. IsOutcome (record { status = a.status; out = a.out.items; err = a.err.items }) };
}

impl Answer {
    ghost use Rattle.std.specs.Prelude.{◌≡◌, true};
    ghost use Rattle.run_steps.specs.Outcome.{IsOutcome};

    /// An answer of these three parts.
    pub fn new(status: Status, out: Vec<u8>, err: Vec<u8>) -> Answer
        requires { IsOutcome (record { status = status; out = out.items; err = err.items }) }
        ensures { result ≡ record { status = status; out = out.items; err = err.items } }
    {
        Answer { status, out, err }
    }

    /// How the run ends.
    pub fn status(&self) -> Status
        ensures status { result ≡ self.now.status }
        ensures outcome { IsOutcome self.now }
    {
        self.status
    }

    /// The text of the output.
    pub fn out(&self) -> &[u8]
        ensures { result.now ≡ self.now.out }
    {
        &self.out
    }

    /// The text of the error output.
    pub fn err(&self) -> &[u8]
        ensures { result.now ≡ self.now.err }
    {
        &self.err
    }
}
