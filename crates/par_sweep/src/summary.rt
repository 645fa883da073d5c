//! The summary of a sweep: a line for each slot, and one for all.
ghost use Rattle.std.specs.Prelude.{◌≡◌, ◌+◌, ◌-◌, ◌<◌, ◌^◌, length};
ghost use Rattle.std.specs.List.{flat_map, sum_by};
ghost use Rattle.plain_text.specs.Appending.{Appends};
ghost use Rattle.par_sweep.specs.Summary.{added, slot_line, sums_line, sums_of, summary_text};

use crate::SlotTotals;
use bits_core::NoMemory;
use plain_text::{Piece, push_pieces};
use std::alloc::{AllocError, Global};

/// The sums over several slots.
#[derive(Clone, Copy, Debug)]
struct Sums {
    placed: u64,
    overlapped: u64,
    heard: u64,
}

/// Appends the line of each slot, in order, and then the line of their sums.
pub fn append_summary(
    alloc: Global,
    totals: &[SlotTotals],
    out: &mut Vec<u8>,
) -> Result<(), NoMemory>
    requires { length totals.now < 2 ^ 32 }
    ensures { Appends out.old.items out.new.items (summary_text totals.now) result }
{
    match push_summary(alloc, totals, out) {
        Ok(()) => Ok(()),
        Err(_) => Err(NoMemory),
    }
}

/// The same, with the error of an allocation.
#[tactic(auto, unfolding(crate::specs::Summary::summary_text))]
fn push_summary(alloc: Global, totals: &[SlotTotals], out: &mut Vec<u8>) -> Result<(), AllocError>
    requires { length totals.now < 2 ^ 32 }
    ensures { Appends out.old.items out.new.items (summary_text totals.now) result }
{
    push_slots(alloc, totals, out)?;
    push_sums(alloc, totals.len(), sums_of(totals), out)
}

/// Appends the line of each slot.
fn push_slots(alloc: Global, totals: &[SlotTotals], out: &mut Vec<u8>) -> Result<(), AllocError>
    ensures { Appends out.old.items out.new.items (flat_map slot_line totals.now) result }
{
    for slot in totals {
        push_slot(alloc, *slot, out)?;
    }
    Ok(())
}

/// Appends the line of a slot.
#[tactic(auto, unfolding(crate::specs::Summary::slot_line))]
fn push_slot(alloc: Global, slot: SlotTotals, out: &mut Vec<u8>) -> Result<(), AllocError>
    ensures { Appends out.old.items out.new.items (slot_line slot) result }
{
    let line = [
        Piece::Text(b"frame "),
        Piece::Number(u64::from(slot.frame)),
        Piece::Text(b" slot "),
        Piece::Number(u64::from(slot.slot)),
        Piece::Text(b" placed "),
        Piece::Number(u64::from(slot.placed)),
        Piece::Text(b" overlapped "),
        Piece::Number(u64::from(slot.overlapped)),
        Piece::Text(b" heard "),
        Piece::Number(u64::from(slot.heard)),
        Piece::Text(b"\n"),
    ];
    push_pieces(alloc, out, &line)
}

/// Appends the line of the sums over so many slots.
#[tactic(auto, unfolding(crate::specs::Summary::sums_line))]
fn push_sums(alloc: Global, slots: usize, sums: Sums, out: &mut Vec<u8>) -> Result<(), AllocError>
    ensures { Appends out.old.items out.new.items (sums_line slots sums) result }
{
    let line = [
        Piece::Text(b"slots "),
        Piece::Number(slots as u64),
        Piece::Text(b" placed "),
        Piece::Number(sums.placed),
        Piece::Text(b" overlapped "),
        Piece::Number(sums.overlapped),
        Piece::Text(b" heard "),
        Piece::Number(sums.heard),
        Piece::Text(b"\n"),
    ];
    push_pieces(alloc, out, &line)
}

/// The sums over all slots.
fn sums_of(totals: &[SlotTotals]) -> Sums
    requires { length totals.now < 2 ^ 32 }
    ensures { result ≡ sums_of totals.now }
{
    let mut sums = Sums {
        placed: 0,
        overlapped: 0,
        heard: 0,
    };
    for slot in totals {
        sums = added(sums, *slot);
    }
    sums
}

/// The sums with those of one slot more.
fn added(sums: Sums, slot: SlotTotals) -> Sums
    requires placed { sums.placed < 2 ^ 64 - 2 ^ 32 }
    requires overlapped { sums.overlapped < 2 ^ 64 - 2 ^ 32 }
    requires heard { sums.heard < 2 ^ 64 - 2 ^ 32 }
    ensures sums { result ≡ added sums slot }
    ensures placed { result.placed < sums.placed + 2 ^ 32 }
    ensures overlapped { result.overlapped < sums.overlapped + 2 ^ 32 }
    ensures heard { result.heard < sums.heard + 2 ^ 32 }
{
    Sums {
        placed: sums.placed + u64::from(slot.placed),
        overlapped: sums.overlapped + u64::from(slot.overlapped),
        heard: sums.heard + u64::from(slot.heard),
    }
}
