//! The lines of the error output on the words, on what a file holds and on a slot, without their line feed.
ghost use Rattle.std.specs.Prelude.{◌≡◌, ◌++◌, IfOk, OnOk};
ghost use Rattle.std.specs.List.{flat_map};
ghost use Rattle.pdcch_app.specs.Lines.{reason_text, step_text, further, place_text, settings_line, table_fault_text};
ghost use Rattle.pdcch_app.specs.Lines.{reliability_line, input_order_line, grant_place_text, grants_line};
ghost use Rattle.pdcch_app.specs.Lines.{grid_place_line, grid_number_line, usage_line, slot_line};
ghost use Rattle.pdcch_app.specs.Lines.{no_such_handset_line, no_such_watch_line};

use grant_file::{GrantFault, GrantKey, GrantPlace};
use plain_text::push_number;
use rrc_settings::{Name, Reason, SettingsFault, Step};
use std::alloc::{AllocError, Global};
use table_files::TableFault;

/// Why a value is at fault, in words.
pub fn reason_text(reason: Reason) -> &'static str
    ensures { result.now ≡ reason_text reason }
{
    match reason {
        Reason::NotJson => "not json",
        Reason::Missing => "missing",
        Reason::Unknown => "unknown",
        Reason::WrongKind => "wrong kind",
        Reason::OutOfRange => "out of range",
        Reason::Conflict => "conflict",
    }
}

/// Appends the word of a key or the number of an element.
fn push_step(alloc: Global, text: &mut Vec<u8>, step: &Step) -> Result<(), AllocError>
    ensures { OnOk result (text.new.items ≡ text.old.items ++ step_text step.now) }
{
    match step {
        Step::Key(key) => text.extend_from_slice(key.word()),
        Step::Index(index) => push_number(alloc, text, u64::from(*index)),
    }
}

/// Appends a further step.
#[tactic(auto, unfolding(crate::specs::Lines::further))]
fn push_further(alloc: Global, text: &mut Vec<u8>, step: &Step) -> Result<(), AllocError>
    ensures { OnOk result (text.new.items ≡ text.old.items ++ further step.now) }
{
    text.push(b'/')?;
    push_step(alloc, text, step)
}

/// Appends further steps.
fn push_all_further(alloc: Global, text: &mut Vec<u8>, steps: &[Step]) -> Result<(), AllocError>
    ensures { OnOk result (text.new.items ≡ text.old.items ++ flat_map further steps.now) }
{
    for step in steps {
        push_further(alloc, text, step)?;
    }
    Ok(())
}

/// Appends the place of a value: its steps with slashes between, or the whole file.
fn push_place(alloc: Global, text: &mut Vec<u8>, steps: &[Step]) -> Result<(), AllocError>
    ensures { OnOk result (text.new.items ≡ text.old.items ++ place_text steps.now) }
{
    match steps {
        [] => text.extend_from_slice(b"file"),
        [step, later @ ..] => {
            push_step(alloc, text, step)?;
            push_all_further(alloc, text, later)
        }
    }
}

/// The line on a fault of the settings.
#[tactic(auto, unfolding(crate::specs::Lines::settings_line))]
pub fn settings_line(alloc: Global, fault: &SettingsFault) -> Result<Vec<u8>, AllocError>
    ensures { IfOk result (λ text. text.items ≡ settings_line fault.now) }
{
    let mut text = Vec::from_slice(alloc, b"error: settings: ")?;
    push_place(alloc, &mut text, fault.place.steps.as_slice())?;
    text.extend_from_slice(b": ")?;
    text.extend_from_slice(reason_text(fault.reason).as_bytes())?;
    Ok(text)
}

/// Appends what is wrong with a table.
fn push_table_fault(alloc: Global, text: &mut Vec<u8>, fault: TableFault) -> Result<(), AllocError>
    ensures { OnOk result (text.new.items ≡ text.old.items ++ table_fault_text fault) }
{
    match fault {
        TableFault::BadByte { at } => {
            text.extend_from_slice(b"bad byte at ")?;
            push_number(alloc, text, at as u64)
        }
        TableFault::TooLarge { at, value } => {
            text.extend_from_slice(b"value ")?;
            push_number(alloc, text, u64::from(value))?;
            text.extend_from_slice(b" at ")?;
            push_number(alloc, text, at as u64)?;
            text.extend_from_slice(b" too large")
        }
        TableFault::Repeated { value } => {
            text.extend_from_slice(b"value ")?;
            push_number(alloc, text, u64::from(value))?;
            text.extend_from_slice(b" repeated")
        }
        TableFault::Count { found } => {
            push_number(alloc, text, u64::from(found))?;
            text.extend_from_slice(b" values")
        }
    }
}

/// The line on a fault of a reliability table.
#[tactic(auto, unfolding(crate::specs::Lines::reliability_line))]
pub fn reliability_line(alloc: Global, fault: TableFault) -> Result<Vec<u8>, AllocError>
    ensures { IfOk result (λ text. text.items ≡ reliability_line fault) }
{
    let mut text = Vec::from_slice(alloc, b"error: reliability: ")?;
    push_table_fault(alloc, &mut text, fault)?;
    Ok(text)
}

/// The line on a fault of an input order.
#[tactic(auto, unfolding(crate::specs::Lines::input_order_line))]
pub fn input_order_line(alloc: Global, fault: TableFault) -> Result<Vec<u8>, AllocError>
    ensures { IfOk result (λ text. text.items ≡ input_order_line fault) }
{
    let mut text = Vec::from_slice(alloc, b"error: input order: ")?;
    push_table_fault(alloc, &mut text, fault)?;
    Ok(text)
}

/// Appends the place of a value in a list of grants.
fn push_grant_place(alloc: Global, text: &mut Vec<u8>, place: &GrantPlace) -> Result<(), AllocError>
    ensures { OnOk result (text.new.items ≡ text.old.items ++ grant_place_text place.now.grant place.now.key) }
{
    match (place.grant, place.key) {
        (None, GrantKey::Whole) => text.extend_from_slice(b"file"),
        (None, key) => text.extend_from_slice(key.word()),
        (Some(grant), key) => {
            text.extend_from_slice(b"grants/")?;
            push_number(alloc, text, u64::from(grant))?;
            if key == GrantKey::Whole {
                return Ok(());
            }
            text.push(b'/')?;
            text.extend_from_slice(key.word())
        }
    }
}

/// The line on a fault of the grants.
#[tactic(auto, unfolding(crate::specs::Lines::grants_line))]
pub fn grants_line(alloc: Global, fault: &GrantFault) -> Result<Vec<u8>, AllocError>
    ensures { IfOk result (λ text. text.items ≡ grants_line fault.now) }
{
    let mut text = Vec::from_slice(alloc, b"error: grants: ")?;
    push_grant_place(alloc, &mut text, &fault.place)?;
    text.extend_from_slice(b": ")?;
    text.extend_from_slice(reason_text(fault.reason).as_bytes())?;
    Ok(text)
}

/// The line on bytes that are no grid's text from a place on.
#[tactic(auto, unfolding(crate::specs::Lines::grid_place_line))]
pub fn grid_place_line(alloc: Global, at: usize) -> Result<Vec<u8>, AllocError>
    ensures { IfOk result (λ text. text.items ≡ grid_place_line at) }
{
    let mut text = Vec::from_slice(alloc, b"error: grid: byte ")?;
    push_number(alloc, &mut text, at as u64)?;
    Ok(text)
}

/// The line on a number of a grid that is not the settings'.
#[tactic(auto, unfolding(crate::specs::Lines::grid_number_line))]
pub fn grid_number_line(
    alloc: Global,
    word: &[u8],
    grid: u16,
    settings: u16,
) -> Result<Vec<u8>, AllocError>
    ensures { IfOk result (λ text. text.items ≡ grid_number_line word.now grid settings) }
{
    let mut text = Vec::from_slice(alloc, b"error: grid: ")?;
    text.extend_from_slice(word)?;
    text.push(b' ')?;
    push_number(alloc, &mut text, u64::from(grid))?;
    text.push(b' ')?;
    push_number(alloc, &mut text, u64::from(settings))?;
    Ok(text)
}

/// The line on words that are not legal.
pub fn usage_line(alloc: Global) -> Result<Vec<u8>, AllocError>
    ensures { IfOk result (λ text. text.items ≡ usage_line) }
{
    Vec::from_slice(alloc, b"error: usage")
}

/// The line on a name that no handset has.
pub fn no_such_handset_line(alloc: Global, name: &str) -> Result<Vec<u8>, AllocError>
    ensures { IfOk result (λ text. text.items ≡ no_such_handset_line name.now) }
{
    let mut text = Vec::from_slice(alloc, b"error: no such handset ")?;
    text.extend_from_slice(name.as_bytes())?;
    Ok(text)
}

/// The line on a number that no watch has, as it was given.
pub fn no_such_watch_line(alloc: Global, word: &str) -> Result<Vec<u8>, AllocError>
    ensures { IfOk result (λ text. text.items ≡ no_such_watch_line word.now) }
{
    let mut text = Vec::from_slice(alloc, b"error: no such watch ")?;
    text.extend_from_slice(word.as_bytes())?;
    Ok(text)
}

/// The line on a slot in which the common sets of a handset exceed a limit.
#[tactic(auto, unfolding(crate::specs::Lines::slot_line))]
pub fn slot_line(
    alloc: Global,
    name: &Name,
    candidates: u16,
    cces: u16,
) -> Result<Vec<u8>, AllocError>
    ensures { IfOk result (λ text. text.items ≡ slot_line name.now candidates cces) }
{
    let mut text = Vec::from_slice(alloc, b"error: slot: handset ")?;
    text.extend_from_slice(name.as_bytes())?;
    text.extend_from_slice(b": ")?;
    push_number(alloc, &mut text, u64::from(candidates))?;
    text.extend_from_slice(b" candidates, ")?;
    push_number(alloc, &mut text, u64::from(cces))?;
    text.extend_from_slice(b" cces")?;
    Ok(text)
}
