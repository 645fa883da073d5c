//! Fetches one file.
ghost use Rattle.std.specs.Prelude.{ℕ, List};
ghost use Rattle.run_steps.specs.Outcome.{raw};
ghost use Rattle.run_steps.specs.Steps.{Step};

use crate::lines::{READ, TOO_LONG};
use crate::statuses::Status;
use crate::stops::{Stop, refusal_naming};
use crate::texts::Text;
use outside::{FetchFault, Shelf};
use std::alloc::Global;

/// The greatest number of bytes of a file.
const LIMIT: usize = 8_388_608;

/// The bytes of a file, or the refusal that says what its fetch met.
pub fn take<S: Shelf>(alloc: Global, shelf: &mut S, name: &str) -> Result<Text, Stop>
    requires { S.may shelf.old name.now }
    ensures step { Step raw name.now (S.shows shelf.old) (S.shows shelf.new) result }
    ensures may { (n : List ℕ) → S.may shelf.old n → S.may shelf.new n }
{
    let mut bytes = Vec::new(alloc);
    match shelf.fetch(alloc, name, LIMIT, &mut bytes) {
        Ok(()) => Ok(Text::from_vec(bytes)),
        Err(FetchFault::Failed) => Err(refusal_naming(alloc, Status::ReadFault, READ, name)),
        Err(FetchFault::TooLong) => {
            Err(refusal_naming(alloc, Status::FileTooLong, TOO_LONG, name))
        }
        Err(FetchFault::NoMemory) => Err(Stop::OutOfMemory),
    }
}
