//! Opening a cell and closing it.
ghost use Rattle.std.specs.Prelude.{◌≡◌, ◌⊎◌, Err, None, Result, is_some, true, false};
ghost use Rattle.nrpdcch_c.specs.Faults.{fault_left};
ghost use Rattle.nrpdcch_c.specs.Opening.{cell_in, closing, handle_left, opened_in, opening, table_or_fault, unboxed, OpenLeaves};
ghost use Rattle.nrpdcch_c.specs.Stops.{Answers, OrNoMemory, answer_number};
ghost use Rattle.nrpdcch_c.specs.declared.stop.Stop.TheVariants as stops;
ghost use Rattle.table_files.specs.TableText.{read_table};

use crate::fault::{NrpdcchFault, put_fault};
use crate::handle::{NrpdcchCell, Opened};
use crate::status::Status;
use crate::stop::{Stop, answer_number};
use rrc_settings::Cell;
use settings_json::{SettingsError, read_settings};
use std::alloc::Global;
use table_files::{InputOrder, Reliability, Tables, read_input_order, read_reliability};

/// The legal cell of a text.
fn cell_in(alloc: Global, settings: &[u8]) -> Result<Cell, Stop>
    ensures { Answers (cell_in settings.now) result }
{
    match read_settings(alloc, settings) {
        Ok(cell) => Ok(cell),
        Err(SettingsError::NoMemory) => Err(Stop::NoMemory),
        Err(SettingsError::Fault(fault)) => Err(Stop::Settings(fault)),
    }
}

/// The reliability table of a text.
fn reliability_in(bytes: &[u8]) -> Result<Reliability, Stop>
    ensures { result ≡ table_or_fault stops.Reliability (read_table 1024 bytes.now) }
{
    match read_reliability(bytes) {
        Ok(table) => Ok(table),
        Err(fault) => Err(Stop::Reliability(fault)),
    }
}

/// The input order of a text.
fn input_order_in(bytes: &[u8]) -> Result<InputOrder, Stop>
    ensures { result ≡ table_or_fault stops.InputOrder (read_table 164 bytes.now) }
{
    match read_input_order(bytes) {
        Ok(table) => Ok(table),
        Err(fault) => Err(Stop::InputOrder(fault)),
    }
}

/// The cell and the tables of three texts.
#[tactic(auto, unfolding(crate::specs::Opening::opened_in))]
fn opened_in(
    alloc: Global,
    settings: &[u8],
    reliability: &[u8],
    input_order: &[u8],
) -> Result<Opened, Stop>
    ensures { Answers (opened_in settings.now reliability.now input_order.now) result }
{
    let cell = cell_in(alloc, settings)?;
    let reliability = reliability_in(reliability)?;
    let input_order = input_order_in(input_order)?;
    Ok(Opened {
        cell,
        tables: Tables {
            reliability,
            input_order,
        },
    })
}

/// The same for a handle that may be open already, in a box.
fn boxed(
    alloc: Global,
    settings: &[u8],
    reliability: &[u8],
    input_order: &[u8],
    cell: &mut NrpdcchCell,
) -> Result<Box<Opened>, Stop>
    ensures answer { Answers (opening cell.old.value settings.now reliability.now input_order.now) (unboxed result) }
    ensures open { is_some cell.old.value ≡ true → result ≡ Err stops.Open }
    ensures kept { cell.new.value ≡ cell.old.value }
{
    if cell.is_full() {
        return Err(Stop::Open);
    }
    let opened = opened_in(alloc, settings, reliability, input_order)?;
    match Box::new(alloc, opened) {
        Ok(opened) => Ok(opened),
        Err(_) => Err(Stop::NoMemory),
    }
}

/// Puts what was opened behind the handle.
fn keep(answer: Result<Box<Opened>, Stop>, cell: &mut NrpdcchCell)
    ensures { cell.new.value ≡ handle_left (unboxed answer) cell.old.value }
{
    if let Ok(opened) = answer {
        cell.put(opened);
    }
}

/// Opens a cell: reads its settings and the two tables, and keeps them behind the handle.
#[unsafe(no_mangle)]
pub extern "C" fn nrpdcch_cell_open(
    alloc: Global,
    settings: &[u8],
    reliability: &[u8],
    input_order: &[u8],
    cell: &mut NrpdcchCell,
    fault: &mut NrpdcchFault,
) -> u32
    ensures answer { OrNoMemory (OpenLeaves result cell.old.value cell.new.value fault.old fault.new)
        (opening cell.old.value settings.now reliability.now input_order.now) }
    ensures open { is_some cell.old.value ≡ true → result ≡ 4 }
{
    let answer = boxed(alloc, settings, reliability, input_order, cell);
    put_fault(&answer, fault);
    let number = answer_number(&answer);
    keep(answer, cell);
    number
}

/// Closes a handle, and gives its memory back.
#[unsafe(no_mangle)]
pub extern "C" fn nrpdcch_cell_close(alloc: Global, cell: &mut NrpdcchCell) -> u32
    ensures answer { result ≡ closing cell.old.value }
    ensures closed { cell.new.value ≡ None }
{
    if !cell.is_full() {
        return Status::Closed.number();
    }
    let _opened = cell.take(alloc);
    Status::Done.number()
}
