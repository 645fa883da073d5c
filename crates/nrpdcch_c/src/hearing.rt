//! What a handset hears at a watch.
ghost use Rattle.std.specs.Prelude.{◌≡◌, Err, None, ◌<◌, ◌≤◌, All, IfOk, length};
ghost use Rattle.dci_codec.specs.Answer.{answer_at};
ghost use Rattle.monitor_plan.specs.Watch.{IsInside, IsSound};
ghost use Rattle.nrpdcch_c.specs.Hearing.{hear_in, hear_wanted, heard_or_silent, HearLeaves};
ghost use Rattle.nrpdcch_c.specs.HeardNumbers.{heard_of};
ghost use Rattle.nrpdcch_c.specs.Planning.{watch_in};
ghost use Rattle.nrpdcch_c.specs.Points.{grid_in, places_of};
ghost use Rattle.nrpdcch_c.specs.declared.stop.Stop.TheVariants as stops;
ghost use Rattle.nrpdcch_c.specs.Stops.{Answers, OrNoMemory, value_left};
ghost use Rattle.slot_grid.specs.Grid.{slots_in_frame};

use crate::handle::{NrpdcchCell, Opened};
use crate::heard::{NrpdcchHeard, heard_of};
use crate::planning::plan_in;
use crate::points::{Numbers, grid_in};
use crate::silence::{NrpdcchSilence, put_silence};
use crate::stop::{Stop, answer_number};
use dci_codec::{Heard, hear};
use monitor_plan::{Outline, Watch};
use rrc_settings::Cell;
use slot_grid::Grid;
use std::alloc::Global;
use table_files::Tables;

/// The watch of a number of a plan whose watches are inside so many blocks.
pub(crate) fn watch_in(plan: &Outline, number: u32, blocks: u16) -> Result<Watch, Stop>
    requires { All (IsInside blocks) plan.now }
    ensures answer { result ≡ watch_in plan.now number }
    ensures sound { IfOk result IsSound }
    ensures inside { IfOk result (IsInside blocks) }
{
    let at = number as usize;
    if at < plan.len() {
        Ok(plan.watch(at))
    } else {
        Err(Stop::NoWatch)
    }
}

/// The grid of a slot of a cell that bytes are.
pub(crate) fn grid_of_cell(
    alloc: Global,
    cell: &Cell,
    frame: u32,
    slot: u32,
    bytes: &[u8],
) -> Result<Grid, Stop>
    requires frame { frame ≤ 1023 }
    requires slot { slot < slots_in_frame cell.now.mu }
    ensures answer { Answers (grid_in cell.now.mu frame slot cell.now.blocks bytes.now) result }
    ensures blocks { IfOk result (λ grid. grid.blocks ≡ cell.now.blocks) }
    ensures size { IfOk result (λ grid. length bytes.now ≡ places_of grid.blocks) }
{
    let raw = cell.raw();
    let numbers = Numbers {
        mu: raw.mu,
        frame: frame as u16,
        slot: slot as u16,
        blocks: raw.blocks,
    };
    grid_in(alloc, numbers, bytes)
}

/// What is heard at a watch.
fn hear_at(tables: &Tables, watch: &Watch, number: u32, grid: &Grid) -> Result<Heard, Stop>
    requires sound { IsSound watch.now }
    requires inside { IsInside grid.now.blocks watch.now }
    ensures { result ≡ heard_or_silent (answer_at tables.now grid.now watch.now number) }
{
    match hear(tables, watch, number, grid) {
        Ok(heard) => Ok(heard),
        Err(silence) => Err(Stop::Silent(silence)),
    }
}

/// What a handset of an opened cell hears at the watch of a number.
#[tactic(auto, unfolding(crate::specs::Hearing::hear_in))]
fn hear_in(
    alloc: Global,
    opened: &Opened,
    handset: u32,
    frame: u32,
    slot: u32,
    number: u32,
    bytes: &[u8],
) -> Result<Heard, Stop>
    ensures { Answers (hear_in opened.now handset frame slot number bytes.now) result }
{
    let plan = plan_in(alloc, &opened.cell, handset, frame, slot)?;
    let watch = watch_in(&plan, number, opened.cell.raw().blocks)?;
    let grid = grid_of_cell(alloc, &opened.cell, frame, slot, bytes)?;
    hear_at(&opened.tables, &watch, number, &grid)
}

/// The same for the cell behind a handle.
fn hear_behind(
    alloc: Global,
    cell: &mut NrpdcchCell,
    handset: u32,
    frame: u32,
    slot: u32,
    number: u32,
    bytes: &[u8],
) -> Result<Heard, Stop>
    ensures answer { Answers (hear_wanted cell.old.value handset frame slot number bytes.now) result }
    ensures closed { cell.old.value ≡ None → result ≡ Err stops.Closed }
    ensures kept { cell.new.value ≡ cell.old.value }
{
    if !cell.is_full() {
        return Err(Stop::Closed);
    }
    let opened = cell.take(alloc);
    let answer = hear_in(alloc, &opened, handset, frame, slot, number, bytes);
    cell.put(opened);
    answer
}

/// Writes what is heard, where something is.
fn put_heard(answer: &Result<Heard, Stop>, heard: &mut NrpdcchHeard)
    ensures { heard.new ≡ value_left heard_of answer.now heard.old }
{
    if let Ok(found) = answer {
        *heard = heard_of(found);
    }
}

/// What a handset hears at one of its watches on a grid of the slot, or at which stage of hearing it falls silent.
#[unsafe(no_mangle)]
pub extern "C" fn nrpdcch_hear(
    alloc: Global,
    cell: &mut NrpdcchCell,
    handset: u32,
    frame: u32,
    slot: u32,
    watch: u32,
    grid: &[u8],
    heard: &mut NrpdcchHeard,
    silence: &mut NrpdcchSilence,
) -> u32
    ensures answer { OrNoMemory (HearLeaves result heard.old heard.new silence.old silence.new)
        (hear_wanted cell.old.value handset frame slot watch grid.now) }
    ensures closed { cell.old.value ≡ None → result ≡ 3 }
    ensures kept { cell.new.value ≡ cell.old.value }
{
    let answer = hear_behind(alloc, cell, handset, frame, slot, watch, grid);
    put_heard(&answer, heard);
    put_silence(&answer, silence);
    answer_number(&answer)
}
