//! The lines of one watch: where it looks, and what was heard there or why nothing was.
ghost use Rattle.std.specs.Prelude.{◌≡◌};
ghost use Rattle.plain_text.specs.Appending.{Appends};
ghost use Rattle.report_text.specs.Explain.{watch_start, watch_line, flaw_word, spot_text, silent_text, format_text};
ghost use Rattle.report_text.specs.Explain.{heard_text, answer_text, answer_line, explain_text};

use crate::report::{push_fields, push_watch};
use bits_core::NoMemory;
use dci_codec::{Heard, Silence};
use dci_fields::Format;
use dmrs_qpsk::{BadPlace, Flaw};
use monitor_plan::Watch;
use plain_text::{Piece, push_pieces, push_text};
use std::alloc::{AllocError, Global};

/// Appends what the first line begins with: the number of the watch.
#[tactic(auto, unfolding(crate::specs::Explain::watch_start))]
fn push_watch_start(alloc: Global, number: u32, out: &mut Vec<u8>) -> Result<(), AllocError>
    ensures { Appends out.old.items out.new.items (watch_start number) result }
{
    let pieces = [
        Piece::Text(b"watch "),
        Piece::Number(u64::from(number)),
        Piece::Text(b" "),
    ];
    push_pieces(alloc, out, &pieces)
}

/// Appends the first line: the number of the watch, and where it looks.
#[tactic(auto, unfolding(crate::specs::Explain::watch_line))]
fn push_watch_line(
    alloc: Global,
    watch: &Watch,
    number: u32,
    out: &mut Vec<u8>,
) -> Result<(), AllocError>
    ensures { Appends out.old.items out.new.items (watch_line number watch.now) result }
{
    push_watch_start(alloc, number, out)?;
    push_watch(alloc, watch, out)?;
    push_text(out, b"\n")
}

/// What is wrong with a place.
fn flaw_word(flaw: &Flaw) -> &[u8]
    ensures { result.now ≡ flaw_word flaw.now }
{
    match flaw {
        Flaw::Empty => b"empty",
        Flaw::Reference => b"reference",
    }
}

/// Appends which place is bad, and what is wrong there.
#[tactic(auto, unfolding(crate::specs::Explain::spot_text))]
fn push_spot(alloc: Global, bad: &BadPlace, out: &mut Vec<u8>) -> Result<(), AllocError>
    ensures { Appends out.old.items out.new.items (spot_text bad.now) result }
{
    let pieces = [
        Piece::Text(b"silent: "),
        Piece::Text(flaw_word(&bad.flaw)),
        Piece::Text(b" at symbol "),
        Piece::Number(u64::from(bad.symbol)),
        Piece::Text(b" subcarrier "),
        Piece::Number(u64::from(bad.subcarrier)),
    ];
    push_pieces(alloc, out, &pieces)
}

/// Appends why nothing was heard.
fn push_silent(alloc: Global, silence: &Silence, out: &mut Vec<u8>) -> Result<(), AllocError>
    ensures { Appends out.old.items out.new.items (silent_text silence.now) result }
{
    match silence {
        Silence::Spot(bad) => push_spot(alloc, bad, out),
        Silence::Repeat { at } => {
            let pieces = [
                Piece::Text(b"silent: repeat at bit "),
                Piece::Number(*at as u64),
            ];
            push_pieces(alloc, out, &pieces)
        }
        Silence::Code => push_text(out, b"silent: code"),
        Silence::Crc => push_text(out, b"silent: crc"),
        Silence::Format => push_text(out, b"silent: format"),
    }
}

/// Appends the format that was heard.
#[tactic(auto, unfolding(crate::specs::Explain::format_text))]
fn push_format(alloc: Global, format: Format, out: &mut Vec<u8>) -> Result<(), AllocError>
    ensures { Appends out.old.items out.new.items (format_text format) result }
{
    let pieces = [Piece::Text(b"heard: "), Piece::Text(format.word())];
    push_pieces(alloc, out, &pieces)
}

/// Appends what was heard: a format, and each shown field.
#[tactic(auto, unfolding(crate::specs::Explain::heard_text))]
fn push_heard(alloc: Global, heard: &Heard, out: &mut Vec<u8>) -> Result<(), AllocError>
    ensures { Appends out.old.items out.new.items (heard_text heard.now) result }
{
    push_format(alloc, heard.format, out)?;
    push_fields(alloc, heard.values.entries(), out)
}

/// Appends what was heard, or why nothing was.
fn push_answer(
    alloc: Global,
    answer: &Result<Heard, Silence>,
    out: &mut Vec<u8>,
) -> Result<(), AllocError>
    ensures { Appends out.old.items out.new.items (answer_text answer.now) result }
{
    match answer {
        Ok(heard) => push_heard(alloc, heard, out),
        Err(silence) => push_silent(alloc, silence, out),
    }
}

/// Appends the second line: what was heard, or why nothing was.
#[tactic(auto, unfolding(crate::specs::Explain::answer_line))]
fn push_answer_line(
    alloc: Global,
    answer: &Result<Heard, Silence>,
    out: &mut Vec<u8>,
) -> Result<(), AllocError>
    ensures { Appends out.old.items out.new.items (answer_line answer.now) result }
{
    push_answer(alloc, answer, out)?;
    push_text(out, b"\n")
}

/// Appends both lines of a watch.
#[tactic(auto, unfolding(crate::specs::Explain::explain_text))]
fn push_explain(
    alloc: Global,
    watch: &Watch,
    number: u32,
    answer: &Result<Heard, Silence>,
    out: &mut Vec<u8>,
) -> Result<(), AllocError>
    ensures { Appends out.old.items out.new.items (explain_text watch.now number answer.now) result }
{
    push_watch_line(alloc, watch, number, out)?;
    push_answer_line(alloc, answer, out)
}

/// Appends the two lines of the watch of a number with the answer there: where it looks, then what was heard, or why
/// nothing was.
pub fn append_explain(
    alloc: Global,
    watch: &Watch,
    number: u32,
    answer: &Result<Heard, Silence>,
    out: &mut Vec<u8>,
) -> Result<(), NoMemory>
    ensures { Appends out.old.items out.new.items (explain_text watch.now number answer.now) result }
{
    match push_explain(alloc, watch, number, answer, out) {
        Ok(()) => Ok(()),
        Err(_) => Err(NoMemory),
    }
}
