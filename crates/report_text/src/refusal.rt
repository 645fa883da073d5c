//! The line of a grant that was refused.
ghost use Rattle.std.specs.Prelude.{◌≡◌};
ghost use Rattle.plain_text.specs.Appending.{Appends};
ghost use Rattle.report_text.specs.Refusal.{IsNamed, NamesField, IsWorded, word_at, value_at, field_cause, cause_text};
ghost use Rattle.report_text.specs.Refusal.{refusal_start, refusal_line};

use bits_core::NoMemory;
use cell_placer::Refusal;
use dci_fields::FieldFault;
use grant_file::Grant;
use plain_text::{Piece, push_pieces, push_text};
use std::alloc::{AllocError, Global};

/// The word at a place of a grant's values.
fn word_at(grant: &Grant, at: usize) -> &[u8]
    requires { IsWorded grant.now at }
    ensures { result.now ≡ word_at grant.now at }
{
    grant.words.as_slice()[at].as_bytes()
}

/// The number at a place of a grant's values.
fn value_at(grant: &Grant, at: usize) -> u64
    requires { IsWorded grant.now at }
    ensures { result ≡ value_at grant.now at }
{
    grant.given.as_slice()[at].value
}

/// Appends what is wrong with the field values of a grant.
fn push_field_cause(
    alloc: Global,
    grant: &Grant,
    fault: &FieldFault,
    out: &mut Vec<u8>,
) -> Result<(), AllocError>
    requires { NamesField grant.now fault.now }
    ensures { Appends out.old.items out.new.items (field_cause grant.now fault.now) result }
{
    match fault {
        FieldFault::Unknown { at } => {
            let pieces = [
                Piece::Text(b"unknown field "),
                Piece::Text(word_at(grant, *at)),
            ];
            push_pieces(alloc, out, &pieces)
        }
        FieldFault::TooLarge { at, width } => {
            let pieces = [
                Piece::Text(b"field "),
                Piece::Text(word_at(grant, *at)),
                Piece::Text(b" too large: "),
                Piece::Number(value_at(grant, *at)),
                Piece::Text(b" for "),
                Piece::Number(u64::from(*width)),
                Piece::Text(b" bits"),
            ];
            push_pieces(alloc, out, &pieces)
        }
        FieldFault::AllOnes => push_text(out, b"field fdra all ones"),
    }
}

/// Appends why a grant was refused.
fn push_cause(
    alloc: Global,
    grant: &Grant,
    refusal: &Refusal,
    out: &mut Vec<u8>,
) -> Result<(), AllocError>
    requires { IsNamed grant.now refusal.now }
    ensures { Appends out.old.items out.new.items (cause_text grant.now refusal.now) result }
{
    match refusal {
        Refusal::UnknownHandset => push_text(out, b"unknown handset"),
        Refusal::UnknownSet => push_text(out, b"unknown set"),
        Refusal::Unmonitored => push_text(out, b"unmonitored"),
        Refusal::Field(fault) => push_field_cause(alloc, grant, fault, out),
        Refusal::Overlap { earlier } => {
            let pieces = [
                Piece::Text(b"overlap with grant "),
                Piece::Number(u64::from(*earlier)),
            ];
            push_pieces(alloc, out, &pieces)
        }
        Refusal::Full { room } => {
            let pieces = [Piece::Text(b"full at "), Piece::Number(u64::from(*room))];
            push_pieces(alloc, out, &pieces)
        }
    }
}

/// Appends what the line of a grant begins with: its number.
#[tactic(auto, unfolding(crate::specs::Refusal::refusal_start))]
fn push_start(alloc: Global, number: u32, out: &mut Vec<u8>) -> Result<(), AllocError>
    ensures { Appends out.old.items out.new.items (refusal_start number) result }
{
    let pieces = [
        Piece::Text(b"grant "),
        Piece::Number(u64::from(number)),
        Piece::Text(b": "),
    ];
    push_pieces(alloc, out, &pieces)
}

/// Appends the line of a refused grant.
#[tactic(auto, unfolding(crate::specs::Refusal::refusal_line))]
fn push_refusal(
    alloc: Global,
    number: u32,
    grant: &Grant,
    refusal: &Refusal,
    out: &mut Vec<u8>,
) -> Result<(), AllocError>
    requires { IsNamed grant.now refusal.now }
    ensures { Appends out.old.items out.new.items (refusal_line number grant.now refusal.now) result }
{
    push_start(alloc, number, out)?;
    push_cause(alloc, grant, refusal, out)?;
    push_text(out, b"\n")
}

/// Appends the line of a refused grant: its number and why it was refused. Where a field value is at fault, the grant
/// has it, and a word for each of its values.
pub fn append_refusal(
    alloc: Global,
    number: u32,
    grant: &Grant,
    refusal: &Refusal,
    out: &mut Vec<u8>,
) -> Result<(), NoMemory>
    requires { IsNamed grant.now refusal.now }
    ensures { Appends out.old.items out.new.items (refusal_line number grant.now refusal.now) result }
{
    match push_refusal(alloc, number, grant, refusal, out) {
        Ok(()) => Ok(()),
        Err(_) => Err(NoMemory),
    }
}
