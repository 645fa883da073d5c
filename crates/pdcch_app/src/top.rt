//! The top call: one run of the program.
ghost use Rattle.std.specs.Prelude.{◌≡◌, List, All};
ghost use Rattle.pdcch_app.specs.Exits.{Exits};
ghost use Rattle.pdcch_app.specs.Lines.{usage_line};
ghost use Rattle.pdcch_app.specs.Outcomes.{outcome};
ghost use Rattle.pdcch_app.specs.Words.{named};
ghost use Rattle.run_steps.specs.Outcome.{refused};
ghost use Rattle.run_steps.specs.Ran.{Ran, Completes};
ghost use Rattle.run_steps.specs.Steps.{IsStop, Work};

use crate::commands::{explain, search, sweep, write};
use crate::lines::usage_line;
use crate::words::{Command, file, legal, slots};
use outside::{Shelf, Sink};
use par_sweep::Gate;
use run_steps::{Answer, Status, Stop, finish, refusal};
use std::alloc::Global;
use std::thread::Threads;

/// That the words are not legal.
fn usage(alloc: Global) -> Stop
    ensures { IsStop (refused Status.Usage usage_line) result }
{
    match usage_line(alloc) {
        Ok(line) => refusal(alloc, Status::Usage, line),
        Err(_) => Stop::OutOfMemory,
    }
}

/// The answer to the words, over what the fetches give.
fn answer_of<R: Threads + Sync, G: Gate, S: Shelf>(
    rt: &R,
    alloc: Global,
    gate: &G,
    words: &[String],
    shelf: &mut S,
) -> Result<Answer, Stop>
    requires { All (S.may shelf.old) (named words.now) }
    ensures { Work (outcome words.now) (named words.now) (S.shows shelf.old) (S.shows shelf.new) result }
{
    match legal(words) {
        None => Err(usage(alloc)),
        Some(Command::Write) => write(
            alloc,
            shelf,
            file(Command::Write, words, 0),
            file(Command::Write, words, 1),
            file(Command::Write, words, 2),
            file(Command::Write, words, 3),
        ),
        Some(Command::Search) => search(
            alloc,
            shelf,
            words,
            file(Command::Search, words, 0),
            file(Command::Search, words, 1),
            file(Command::Search, words, 2),
            file(Command::Search, words, 3),
        ),
        Some(Command::Explain) => explain(
            alloc,
            shelf,
            words,
            file(Command::Explain, words, 0),
            file(Command::Explain, words, 1),
            file(Command::Explain, words, 2),
            file(Command::Explain, words, 3),
        ),
        Some(Command::Sweep) => sweep(
            rt,
            alloc,
            gate,
            shelf,
            slots(words),
            file(Command::Sweep, words, 0),
            file(Command::Sweep, words, 1),
        ),
    }
}

/// One run of the program on the words after its own name: fetches what they name from the shelf, one
/// file after the other, and writes the answer to `out` and `err`.
///
/// The searches of `sweep` enter the gate, each before it begins. The answer is how the run ended; `Status::code` gives the exit
/// status.
pub fn run<R: Threads + Sync, G: Gate, S: Shelf, K: Sink, L: Sink>(
    rt: &R,
    alloc: Global,
    gate: &G,
    words: &[String],
    shelf: &mut S,
    out: &mut K,
    err: &mut L,
) -> Status
    requires { All (S.may shelf.old) (named words.now) }
    ensures ran { Ran (outcome words.now) (named words.now) (S.shows shelf.old) (S.shows shelf.new) result (K.shows out.old)
        (K.shows out.new) (L.shows err.old) (L.shows err.new) }

    // Where all named files are told and no count of faults rises, the run ends as the told bytes want it.
    ensures complete { Completes (outcome words.now) (named words.now) (S.shows shelf.old) (S.shows shelf.new) result
        (K.shows out.old) (K.shows out.new) (L.shows err.old) (L.shows err.new) }
{
    finish(answer_of(rt, alloc, gate, words, shelf), out, err)
}

/// The exit status of one run of the program, which is that of its answer.
pub fn exit_status<R: Threads + Sync, G: Gate, S: Shelf, K: Sink, L: Sink>(
    rt: &R,
    alloc: Global,
    gate: &G,
    words: &[String],
    shelf: &mut S,
    out: &mut K,
    err: &mut L,
) -> u8
    requires { All (S.may shelf.old) (named words.now) }
    ensures { Exits words.now (S.shows shelf.old) (S.shows shelf.new) result (K.shows out.old) (K.shows out.new) (L.shows err.old)
        (L.shows err.new) }
{
    run(rt, alloc, gate, words, shelf, out, err).code()
}
