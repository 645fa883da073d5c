//! The grid of a caller: a byte for each place.
ghost use Rattle.std.specs.Prelude.{◌≡◌, ◌+◌, ◌*◌, ◌<◌, ◌≤◌, ◌++◌, true, All, IfOk, None, length, map, position, replicate};
ghost use Rattle.std.specs.Prelude.{take, drop};
ghost use Rattle.bits_core.specs.Ones.{has_one};
ghost use Rattle.nrpdcch_c.specs.FilledGrids.{filled_to};
ghost use Rattle.nrpdcch_c.specs.Overlaid.{overlaid};
ghost use Rattle.nrpdcch_c.specs.Points.{byte_of, grid_by, grid_in, is_no_point, places_of, point_of};
ghost use Rattle.nrpdcch_c.specs.Stops.{Answers};
ghost use Rattle.slot_grid.specs.Block.{point_in};
ghost use Rattle.slot_grid.specs.Grid.{slots_in_frame};

use crate::stop::Stop;
use slot_grid::{Grid, Point};
use std::alloc::Global;

/// The numbers of a grid.
#[derive(Clone, Copy)]
pub(crate) struct Numbers {
    pub(crate) mu: u16,
    pub(crate) frame: u16,
    pub(crate) slot: u16,
    pub(crate) blocks: u16,
}

/// The point of a byte.
fn point_of(byte: u8) -> Point
    ensures { result ≡ point_of byte }
{
    match byte {
        1 => Point::P00,
        2 => Point::P01,
        3 => Point::P10,
        4 => Point::P11,
        _ => Point::Empty,
    }
}

/// The largest of some bytes.
fn largest(bytes: &[u8]) -> u8
    ensures { All (λ byte. byte ≤ result) bytes.now }
{
    let mut largest = 0;
    for byte in bytes {
        if largest < *byte {
            largest = *byte;
        }
    }
    largest
}

/// The place of the first byte that is no point.
fn no_point_at(bytes: &[u8]) -> Option<usize>
    ensures { result ≡ position is_no_point bytes.now }
{
    if largest(bytes) <= 4 {
        return None;
    }
    bytes.iter().position(|byte| 4 < *byte)
}

/// The grid of these numbers that bytes are, or the first cause against them.
#[tactic(auto, unfolding(crate::specs::Points::grid_in))]
pub(crate) fn grid_in(alloc: Global, numbers: Numbers, bytes: &[u8]) -> Result<Grid, Stop>
    requires mu { numbers.mu ≤ 3 }
    requires frame { numbers.frame ≤ 1023 }
    requires slot { numbers.slot < slots_in_frame numbers.mu }
    requires blocks_least { 6 ≤ numbers.blocks }
    requires blocks_most { numbers.blocks ≤ 275 }
    ensures answer { Answers (grid_in numbers.mu numbers.frame numbers.slot numbers.blocks bytes.now) result }
    ensures blocks { IfOk result (λ grid. grid.blocks ≡ numbers.blocks) }
    ensures size { IfOk result (λ grid. length bytes.now ≡ places_of grid.blocks) }
{
    if bytes.len() != 14 * (12 * usize::from(numbers.blocks)) {
        return Err(Stop::GridLength);
    }
    if let Some(at) = no_point_at(bytes) {
        return Err(Stop::GridByte { at });
    }
    let Numbers {
        mu,
        frame,
        slot,
        blocks,
    } = numbers;
    let Ok(mut grid) = Grid::blank(alloc, mu, frame, slot, blocks) else {
        return Err(Stop::NoMemory);
    };
    put_points(bytes, &mut grid);
    Ok(grid)
}

/// Whether the twelve bytes of a block are zero.
fn is_empty(bytes: &[u8]) -> bool
    ensures { result ≡ true → bytes.now ≡ replicate 12 0 }
{
    bytes == [0; 12].as_slice()
}

/// Writes the points of the bytes of a block.
fn put_block(bytes: &[u8], start: usize, grid: &mut Grid)
    requires size { length bytes.now ≡ places_of grid.old.blocks }
    requires start { start + 12 ≤ length bytes.now }
    requires before { grid.old ≡ filled_to start bytes.now grid.old }
    ensures { grid.new ≡ filled_to (start + 12) bytes.now grid.old }
{
    let width = 12 * usize::from(grid.blocks());
    for at in start..start + 12 {
        if bytes[at] != 0 {
            grid.put((at / width) as u8, (at % width) as u16, point_of(bytes[at]));
        }
    }
}

/// Writes the points of bytes on a blank grid.
fn put_points(bytes: &[u8], grid: &mut Grid)
    requires size { length bytes.now ≡ places_of grid.old.blocks }
    requires blank { grid.old.points ≡ replicate (places_of grid.old.blocks) Point.Empty }
    ensures { grid.new ≡ grid_by grid.old.mu grid.old.frame grid.old.slot grid.old.blocks (map point_of bytes.now) }
{
    for block in 0..14 * usize::from(grid.blocks()) {
        let start = 12 * block;
        if !is_empty(&bytes[start..start + 12]) {
            put_block(bytes, start, grid);
        }
    }
}

/// Whether a word has a one at a place.
fn has_one(word: u64, at: u32) -> bool
    requires { at < 64 }
    ensures { result ≡ has_one word at }
{
    word >> at & 1 == 1
}

/// The byte of the point that a word has at a subcarrier of its block.
fn byte_in(word: u64, subcarrier: u32) -> u8
    requires { subcarrier < 12 }
    ensures { result ≡ byte_of (point_in word subcarrier) }
{
    if !has_one(word, 24 + subcarrier) {
        return 0;
    }
    match (
        has_one(word, 2 * subcarrier),
        has_one(word, 2 * subcarrier + 1),
    ) {
        (false, false) => 1,
        (false, true) => 2,
        (true, false) => 3,
        (true, true) => 4,
    }
}

/// Writes the points of a grid over the beginning of bytes.
pub(crate) fn put_bytes(grid: &Grid, bytes: &mut [u8])
    requires { places_of grid.now.blocks ≤ length bytes.old }
    ensures { bytes.new ≡ overlaid (map byte_of grid.now.points) bytes.old }
{
    let blocks = usize::from(grid.blocks());
    for index in 0..14 * blocks {
        let word = grid.block((index / blocks) as u8, (index % blocks) as u16);
        for subcarrier in 0..12 {
            bytes[12 * index + subcarrier] = byte_in(word, subcarrier as u32);
        }
    }
}
