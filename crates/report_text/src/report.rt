//! The lines of a handset: how many watches it has and at how many it heard something, then what it heard.
ghost use Rattle.std.specs.Prelude.{◌<◌, All, length};
ghost use Rattle.std.specs.List.{flat_map};
ghost use Rattle.plain_text.specs.Appending.{Appends};
ghost use Rattle.report_text.specs.Report.{handset_line, watch_text, field_text, heard_start, heard_line, entry_line};
ghost use Rattle.report_text.specs.Report.{report_text};

use bits_core::NoMemory;
use dci_codec::Heard;
use dci_fields::{FieldValue, Format};
use monitor_plan::{Plan, Watch};
use plain_text::{Piece, push_pieces, push_text};
use rrc_settings::Name;
use std::alloc::{AllocError, Global};

/// Appends the line of a handset: how many watches it has, and at how many of them it heard something.
#[tactic(auto, unfolding(crate::specs::Report::handset_line))]
fn push_handset(
    alloc: Global,
    name: &[u8],
    watches: usize,
    heard: usize,
    out: &mut Vec<u8>,
) -> Result<(), AllocError>
    ensures { Appends out.old.items out.new.items (handset_line name.now watches heard) result }
{
    let line = [
        Piece::Text(b"handset "),
        Piece::Text(name),
        Piece::Text(b" watches "),
        Piece::Number(watches as u64),
        Piece::Text(b" heard "),
        Piece::Number(heard as u64),
        Piece::Text(b"\n"),
    ];
    push_pieces(alloc, out, &line)
}

/// Appends where a watch looks and at which level, and its size.
#[tactic(auto, unfolding(crate::specs::Report::watch_text))]
pub(crate) fn push_watch(alloc: Global, watch: &Watch, out: &mut Vec<u8>) -> Result<(), AllocError>
    ensures { Appends out.old.items out.new.items (watch_text watch.now) result }
{
    let pieces = [
        Piece::Text(b"set "),
        Piece::Number(u64::from(watch.set)),
        Piece::Text(b" symbol "),
        Piece::Number(u64::from(watch.symbol)),
        Piece::Text(b" level "),
        Piece::Number(u64::from(watch.level)),
        Piece::Text(b" candidate "),
        Piece::Number(u64::from(watch.candidate)),
        Piece::Text(b" size "),
        Piece::Number(u64::from(watch.size)),
    ];
    push_pieces(alloc, out, &pieces)
}

/// Appends what a line says of its watch and of the format that was heard there.
#[tactic(auto, unfolding(crate::specs::Report::heard_start))]
fn push_start(
    alloc: Global,
    watch: &Watch,
    format: Format,
    out: &mut Vec<u8>,
) -> Result<(), AllocError>
    ensures { Appends out.old.items out.new.items (heard_start watch.now format) result }
{
    push_watch(alloc, watch, out)?;
    let pieces = [
        Piece::Text(b" rnti "),
        Piece::HexWord(watch.rnti),
        Piece::Text(b" "),
        Piece::Text(format.word()),
    ];
    push_pieces(alloc, out, &pieces)
}

/// Appends a field and its value.
#[tactic(auto, unfolding(crate::specs::Report::field_text))]
fn push_field(alloc: Global, field: &FieldValue, out: &mut Vec<u8>) -> Result<(), AllocError>
    ensures { Appends out.old.items out.new.items (field_text field.now) result }
{
    let pieces = [
        Piece::Text(b" "),
        Piece::Text(field.name.word()),
        Piece::Text(b"="),
        Piece::Number(u64::from(field.value)),
    ];
    push_pieces(alloc, out, &pieces)
}

/// Appends fields with their values, in order.
pub(crate) fn push_fields(
    alloc: Global,
    fields: &[FieldValue],
    out: &mut Vec<u8>,
) -> Result<(), AllocError>
    ensures { Appends out.old.items out.new.items (flat_map field_text fields.now) result }
{
    for field in fields {
        push_field(alloc, field, out)?;
    }
    Ok(())
}

/// Appends the line of what was heard at a watch.
#[tactic(auto, unfolding(crate::specs::Report::heard_line))]
fn push_heard(
    alloc: Global,
    watch: &Watch,
    format: Format,
    fields: &[FieldValue],
    out: &mut Vec<u8>,
) -> Result<(), AllocError>
    ensures { Appends out.old.items out.new.items (heard_line watch.now format fields.now) result }
{
    push_start(alloc, watch, format, out)?;
    push_fields(alloc, fields, out)?;
    push_text(out, b"\n")
}

/// Appends the line of an entry, whose watch is a place in the list of watches.
#[tactic(auto, unfolding(crate::specs::Report::entry_line))]
fn push_entry(
    alloc: Global,
    watches: &[Watch],
    entry: &Heard,
    out: &mut Vec<u8>,
) -> Result<(), AllocError>
    requires { entry.now.watch < length watches.now }
    ensures { Appends out.old.items out.new.items (entry_line watches.now entry.now) result }
{
    let watch = &watches[entry.watch as usize];
    push_heard(alloc, watch, entry.format, entry.values.entries(), out)
}

/// Appends the lines of what was heard, in order. Each entry's watch is a place in the list of watches.
fn push_entries(
    alloc: Global,
    watches: &[Watch],
    heard: &[Heard],
    out: &mut Vec<u8>,
) -> Result<(), AllocError>
    requires { All (λ entry. entry.watch < length watches.now) heard.now }
    ensures { Appends out.old.items out.new.items (flat_map (entry_line watches.now) heard.now) result }
{
    for entry in heard {
        push_entry(alloc, watches, entry, out)?;
    }
    Ok(())
}

/// Appends all lines of a handset.
#[tactic(auto, unfolding(crate::specs::Report::report_text))]
fn push_report(
    alloc: Global,
    name: &[u8],
    watches: &[Watch],
    heard: &[Heard],
    out: &mut Vec<u8>,
) -> Result<(), AllocError>
    requires { All (λ entry. entry.watch < length watches.now) heard.now }
    ensures { Appends out.old.items out.new.items (report_text name.now watches.now heard.now) result }
{
    push_handset(alloc, name, watches.len(), heard.len(), out)?;
    push_entries(alloc, watches, heard, out)
}

/// Appends the lines of a handset: its name with how many watches its plan has and at how many of them it heard
/// something, then the line of each entry, in order. Each entry's watch is a place in the plan.
pub fn append_report(
    alloc: Global,
    name: &Name,
    plan: &Plan,
    heard: &[Heard],
    out: &mut Vec<u8>,
) -> Result<(), NoMemory>
    requires { All (λ entry. entry.watch < length plan.now) heard.now }
    ensures { Appends out.old.items out.new.items (report_text name.now plan.now heard.now) result }
{
    match push_report(alloc, name.as_bytes(), plan.watches(), heard, out) {
        Ok(()) => Ok(()),
        Err(_) => Err(NoMemory),
    }
}
