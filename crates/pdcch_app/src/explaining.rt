//! What is heard at one watch, or why nothing is.
ghost use Rattle.std.specs.Prelude.{◌≡◌, true, All};
ghost use Rattle.monitor_plan.specs.Watch.{IsInside, IsSound};
ghost use Rattle.run_steps.specs.Outcome.{ended, refused};
ghost use Rattle.run_steps.specs.Steps.{Ends, IsStop};
ghost use Rattle.pdcch_app.specs.Arguments.{is_number};
ghost use Rattle.pdcch_app.specs.Explaining.{explained, explained_among, printed, watch_text};
ghost use Rattle.pdcch_app.specs.Lines.{no_such_watch_line};

use crate::arguments::number_of;
use crate::lines::no_such_watch_line;
use crate::searching::{handset_named, plan_of};
use dci_codec::hear;
use monitor_plan::{Plan, Watch};
use report_text::append_explain;
use rrc_settings::Cell;
use run_steps::{Answer, Status, Stop, refusal};
use slot_grid::Grid;
use std::alloc::Global;
use table_files::Tables;

/// The lines of the watch that a word gives the number of, of the handset with this name.
pub fn explain_named(
    alloc: Global,
    cell: &Cell,
    tables: &Tables,
    grid: &Grid,
    name: &str,
    word: &str,
) -> Result<Answer, Stop>
    requires mu { grid.now.mu ≡ cell.now.mu }
    requires blocks { grid.now.blocks ≡ cell.now.blocks }
    requires number { is_number word.now ≡ true }
    ensures { Ends result (ended (explained cell.now tables.now grid.now name.now word.now)) }
{
    let handset = handset_named(alloc, cell, name)?;
    let plan = plan_of(alloc, cell, grid, handset)?;
    explain_among(alloc, tables, grid, &plan, word)
}

/// The lines of the watch of a plan that a word gives the number of.
fn explain_among(
    alloc: Global,
    tables: &Tables,
    grid: &Grid,
    plan: &Plan,
    word: &str,
) -> Result<Answer, Stop>
    requires inside { All (IsInside grid.now.blocks) plan.now }
    requires number { is_number word.now ≡ true }
    ensures { Ends result (ended (explained_among tables.now grid.now word.now plan.now)) }
{
    let number = number_of(word);
    match plan.watches().get(number as usize) {
        Some(watch) => explain_watch(alloc, tables, grid, watch, number),
        None => Err(no_such_watch(alloc, word)),
    }
}

/// The lines of a watch with its number.
fn explain_watch(
    alloc: Global,
    tables: &Tables,
    grid: &Grid,
    watch: &Watch,
    number: u32,
) -> Result<Answer, Stop>
    requires sound { IsSound watch.now }
    requires inside { IsInside grid.now.blocks watch.now }
    ensures { Ends result (ended (printed (watch_text tables.now grid.now watch.now number))) }
{
    let answer = hear(tables, watch, number, grid);
    let mut text = Vec::new(alloc);
    append_explain(alloc, watch, number, &answer, &mut text)?;
    Ok(Answer::new(Status::Done, text, Vec::new(alloc)))
}

/// The refusal of a word that gives the number of no watch.
fn no_such_watch(alloc: Global, word: &str) -> Stop
    ensures { IsStop (refused Status.NoSuch (no_such_watch_line word.now)) result }
{
    match no_such_watch_line(alloc, word) {
        Ok(line) => refusal(alloc, Status::NoSuch, line),
        Err(_) => Stop::OutOfMemory,
    }
}
