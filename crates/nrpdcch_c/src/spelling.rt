//! Fields spelled at a watch on the grid of a caller.
ghost use Rattle.std.specs.Prelude.{◌≡◌, Err, None, ◌<◌, ◌≤◌, true, IfErr, IfOk, length, map};
ghost use Rattle.monitor_plan.specs.Watch.{fits, IsInside, IsSound};
ghost use Rattle.nrpdcch_c.specs.Points.{byte_of, places_of};
ghost use Rattle.nrpdcch_c.specs.Spelling.{bytes_left, carried, format_in, given_of, spell_in, spell_wanted, spelled};
ghost use Rattle.nrpdcch_c.specs.Spelling.{SpellLeaves};
ghost use Rattle.nrpdcch_c.specs.Stops.{Answers, OrNoMemory};
ghost use Rattle.nrpdcch_c.specs.declared.stop.Stop.TheVariants as stops;

use crate::fault::{NrpdcchFault, put_fault};
use crate::handle::{NrpdcchCell, Opened};
use crate::heard::NrpdcchField;
use crate::hearing::{grid_of_cell, watch_in};
use crate::numbers::{format_of, name_of};
use crate::planning::plan_in;
use crate::points::put_bytes;
use crate::stop::{Stop, answer_number};
use dci_codec::spell;
use dci_fields::{Format, Given};
use monitor_plan::Watch;
use slot_grid::Grid;
use std::alloc::Global;
use table_files::Tables;

/// The format of a number.
fn format_in(number: u32) -> Result<Format, Stop>
    ensures { result ≡ format_in number }
{
    match format_of(number) {
        Some(format) => Ok(format),
        None => Err(Stop::NoFormat),
    }
}

/// A format that a watch carries.
fn carried(watch: &Watch, format: Format) -> Result<Format, Stop>
    ensures answer { result ≡ carried watch.now format }
    ensures fits { IfOk result (λ f. fits watch.now f ≡ true) }
{
    if watch.fits(format) {
        Ok(format)
    } else {
        Err(Stop::NotCarried)
    }
}

/// The values that are asked for.
fn given_in(alloc: Global, fields: &[NrpdcchField]) -> Result<Vec<Given>, Stop>
    ensures given { IfOk result (λ given. given.items ≡ map given_of fields.now) }
    ensures short { IfErr result (λ stop. stop ≡ stops.NoMemory) }
{
    let Ok(mut given) = Vec::with_capacity(alloc, fields.len()) else {
        return Err(Stop::NoMemory);
    };
    for field in fields {
        let asked = Given {
            name: name_of(field.name),
            value: u64::from(field.value),
        };
        if given.push(asked).is_err() {
            return Err(Stop::NoMemory);
        }
    }
    Ok(given)
}

/// Spells the values that are given at a watch.
fn spell_at(
    tables: &Tables,
    watch: &Watch,
    format: Format,
    given: &[Given],
    mut grid: Grid,
) -> Result<Grid, Stop>
    requires sound { IsSound watch.now }
    requires inside { IsInside grid.blocks watch.now }
    requires fitting { fits watch.now format ≡ true }
    ensures answer { result ≡ spelled tables.now watch.now format given.now grid }
    ensures blocks { IfOk result (λ g. g.blocks ≡ grid.blocks) }
{
    match spell(tables, watch, format, given, &mut grid) {
        Ok(()) => Ok(grid),
        Err(fault) => Err(Stop::Field(fault)),
    }
}

/// The grid that bytes are, with the fields of a format spelled at the watch of a number.
#[tactic(auto, unfolding(crate::specs::Spelling::spell_in))]
fn spell_in(
    alloc: Global,
    opened: &Opened,
    handset: u32,
    frame: u32,
    slot: u32,
    number: u32,
    format: u32,
    fields: &[NrpdcchField],
    bytes: &[u8],
) -> Result<Grid, Stop>
    ensures answer { Answers (spell_in opened.now handset frame slot number format fields.now bytes.now) result }
    ensures size { IfOk result (λ grid. places_of grid.blocks ≤ length bytes.now) }
{
    let plan = plan_in(alloc, &opened.cell, handset, frame, slot)?;
    let watch = watch_in(&plan, number, opened.cell.raw().blocks)?;
    let format = carried(&watch, format_in(format)?)?;
    let grid = grid_of_cell(alloc, &opened.cell, frame, slot, bytes)?;
    let given = given_in(alloc, fields)?;
    spell_at(&opened.tables, &watch, format, given.as_slice(), grid)
}

/// The same for the cell behind a handle.
fn spell_behind(
    alloc: Global,
    cell: &mut NrpdcchCell,
    handset: u32,
    frame: u32,
    slot: u32,
    number: u32,
    format: u32,
    fields: &[NrpdcchField],
    bytes: &[u8],
) -> Result<Grid, Stop>
    ensures answer { Answers (spell_wanted cell.old.value handset frame slot number format fields.now bytes.now) result }
    ensures size { IfOk result (λ grid. places_of grid.blocks ≤ length bytes.now) }
    ensures closed { cell.old.value ≡ None → result ≡ Err stops.Closed }
    ensures kept { cell.new.value ≡ cell.old.value }
{
    if !cell.is_full() {
        return Err(Stop::Closed);
    }
    let opened = cell.take(alloc);
    let answer = spell_in(
        alloc, &opened, handset, frame, slot, number, format, fields, bytes,
    );
    cell.put(opened);
    answer
}

/// Writes the points of a grid, where there is one.
pub(crate) fn put_grid(answer: &Result<Grid, Stop>, bytes: &mut [u8])
    requires { IfOk answer.now (λ grid. places_of grid.blocks ≤ length bytes.old) }
    ensures { bytes.new ≡ bytes_left answer.now bytes.old }
{
    if let Ok(grid) = answer {
        put_bytes(grid, bytes);
    }
}

/// Spells the fields of a format at a watch of a handset.
#[unsafe(no_mangle)]
pub extern "C" fn nrpdcch_spell(
    alloc: Global,
    cell: &mut NrpdcchCell,
    handset: u32,
    frame: u32,
    slot: u32,
    watch: u32,
    format: u32,
    fields: &[NrpdcchField],
    grid: &mut [u8],
    fault: &mut NrpdcchFault,
) -> u32
    ensures answer { OrNoMemory (SpellLeaves result grid.old grid.new fault.old fault.new)
        (spell_wanted cell.old.value handset frame slot watch format fields.now grid.old) }
    ensures closed { cell.old.value ≡ None → result ≡ 3 }
    ensures kept { cell.new.value ≡ cell.old.value }
{
    let answer = spell_behind(
        alloc, cell, handset, frame, slot, watch, format, fields, grid,
    );
    put_grid(&answer, grid);
    put_fault(&answer, fault);
    answer_number(&answer)
}
