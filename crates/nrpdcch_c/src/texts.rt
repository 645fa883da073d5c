//! The text of a caller's grid, and the grid of a text.
ghost use Rattle.std.specs.Prelude.{◌≡◌, ◌≤◌, IfOk, length};
ghost use Rattle.nrpdcch_c.specs.GridTexts.{head_of, read_wanted, text_in, text_left, text_wanted, with_room, ReadLeaves};
ghost use Rattle.nrpdcch_c.specs.GridTexts.{TextLeaves};
ghost use Rattle.nrpdcch_c.specs.Overlaid.{overlaid};
ghost use Rattle.nrpdcch_c.specs.Points.{places_of};
ghost use Rattle.nrpdcch_c.specs.Stops.{Answers, OrNoMemory, count_left, fitting, value_left};
ghost use Rattle.slot_grid.specs.Grid.{slots_in_frame};

use crate::fault::{NrpdcchFault, put_fault};
use crate::planning::slots_in_frame;
use crate::points::{Numbers, grid_in};
use crate::spelling::put_grid;
use crate::stop::{Stop, answer_number};
use grid_file::{GridError, read_grid, write_grid};
use rrc_settings::Items;
use slot_grid::Grid;
use std::alloc::Global;

/// The numbers of a grid.
#[repr(C)]
#[derive(Clone, Copy)]
pub struct NrpdcchHead {
    /// The numerology.
    pub mu: u32,
    /// The frame.
    pub frame: u32,
    /// The slot's number in its frame.
    pub slot: u32,
    /// How many blocks of 12 subcarriers.
    pub blocks: u32,
}

/// The text of the grid of these numbers that bytes are.
#[tactic(auto, unfolding(crate::specs::GridTexts::text_in))]
fn text_in(
    alloc: Global,
    mu: u32,
    frame: u32,
    slot: u32,
    blocks: u32,
    bytes: &[u8],
) -> Result<Items<u8>, Stop>
    ensures { Answers (text_in mu frame slot blocks bytes.now) result }
{
    if 3 < mu || 1023 < frame {
        return Err(Stop::Argument);
    }
    if slots_in_frame(mu as u16) <= slot || blocks < 6 || 275 < blocks {
        return Err(Stop::Argument);
    }
    let numbers = Numbers {
        mu: mu as u16,
        frame: frame as u16,
        slot: slot as u16,
        blocks: blocks as u16,
    };
    let grid = grid_in(alloc, numbers, bytes)?;
    match write_grid(alloc, &grid) {
        Ok(text) => Ok(Items::from_vec(text)),
        Err(_) => Err(Stop::NoMemory),
    }
}

/// A text, where there is room for it.
fn fitting(text: Items<u8>, room: usize) -> Result<Items<u8>, Stop>
    ensures answer { result ≡ fitting room text }
    ensures room { IfOk result (λ kept. length kept ≤ room) }
{
    let needed = text.as_slice().len();
    if needed <= room {
        Ok(text)
    } else {
        Err(Stop::Small { needed })
    }
}

/// The same where there is room for it.
fn text_within(
    alloc: Global,
    mu: u32,
    frame: u32,
    slot: u32,
    blocks: u32,
    bytes: &[u8],
    room: usize,
) -> Result<Items<u8>, Stop>
    ensures answer { Answers (text_wanted mu frame slot blocks bytes.now room) result }
    ensures room { IfOk result (λ text. length text ≤ room) }
{
    let text = text_in(alloc, mu, frame, slot, blocks, bytes)?;
    fitting(text, room)
}

/// Writes a text over the beginning of a buffer.
fn put_over(text: &[u8], buffer: &mut [u8])
    requires { length text.now ≤ length buffer.old }
    ensures { buffer.new ≡ overlaid text.now buffer.old }
{
    buffer[..text.len()].copy_from_slice(text);
}

/// Writes a text, where there is one.
fn put_text(answer: &Result<Items<u8>, Stop>, buffer: &mut [u8])
    requires { IfOk answer.now (λ text. length text ≤ length buffer.old) }
    ensures { buffer.new ≡ text_left answer.now buffer.old }
{
    if let Ok(text) = answer {
        put_over(text.as_slice(), buffer);
    }
}

/// How many bytes there are, or the number that is told of a refusal.
fn count_of(answer: &Result<Items<u8>, Stop>) -> usize
    ensures { result ≡ count_left answer.now }
{
    match answer {
        Ok(text) => text.as_slice().len(),
        Err(stop) => stop.number_told(),
    }
}

/// The text of a grid.
#[unsafe(no_mangle)]
pub extern "C" fn nrpdcch_grid_text(
    alloc: Global,
    mu: u32,
    frame: u32,
    slot: u32,
    blocks: u32,
    grid: &[u8],
    text: &mut [u8],
    written: &mut usize,
) -> u32
    ensures { OrNoMemory (TextLeaves result text.old text.new written.new)
        (text_wanted mu frame slot blocks grid.now (length text.old)) }
{
    let answer = text_within(alloc, mu, frame, slot, blocks, grid, text.len());
    put_text(&answer, text);
    *written = count_of(&answer);
    answer_number(&answer)
}

/// A grid, where there is room for it.
fn with_room(grid: Grid, room: usize) -> Result<Grid, Stop>
    ensures answer { result ≡ with_room room grid }
    ensures room { IfOk result (λ kept. places_of kept.blocks ≤ room) }
{
    let needed = 14 * (12 * usize::from(grid.blocks()));
    if needed <= room {
        Ok(grid)
    } else {
        Err(Stop::Small { needed })
    }
}

/// The grid whose text the bytes are, where there is room for it.
#[tactic(auto, unfolding(crate::specs::GridTexts::read_wanted))]
fn read_within(alloc: Global, text: &[u8], room: usize) -> Result<Grid, Stop>
    ensures answer { Answers (read_wanted text.now room) result }
    ensures room { IfOk result (λ grid. places_of grid.blocks ≤ room) }
{
    match read_grid(alloc, text) {
        Ok(grid) => with_room(grid, room),
        Err(GridError::Fault(fault)) => Err(Stop::GridText { at: fault.at }),
        Err(GridError::NoMemory) => Err(Stop::NoMemory),
    }
}

/// The numbers of a grid.
fn head_of(grid: &Grid) -> NrpdcchHead
    ensures { result ≡ head_of grid.now }
{
    NrpdcchHead {
        mu: u32::from(grid.mu()),
        frame: u32::from(grid.frame()),
        slot: u32::from(grid.slot()),
        blocks: u32::from(grid.blocks()),
    }
}

/// Writes the numbers of a grid, where there is one.
fn put_head(answer: &Result<Grid, Stop>, head: &mut NrpdcchHead)
    ensures { head.new ≡ value_left head_of answer.now head.old }
{
    if let Ok(grid) = answer {
        *head = head_of(grid);
    }
}

/// The grid of a text.
#[unsafe(no_mangle)]
pub extern "C" fn nrpdcch_grid_read(
    alloc: Global,
    text: &[u8],
    grid: &mut [u8],
    head: &mut NrpdcchHead,
    fault: &mut NrpdcchFault,
) -> u32
    ensures { OrNoMemory (ReadLeaves result grid.old grid.new head.old head.new fault.old fault.new)
        (read_wanted text.now (length grid.old)) }
{
    let answer = read_within(alloc, text, grid.len());
    put_grid(&answer, grid);
    put_head(&answer, head);
    put_fault(&answer, fault);
    answer_number(&answer)
}
