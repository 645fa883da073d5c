//! The points of a slot, each at its symbol and subcarrier.
ghost use Rattle.std.specs.Prelude.{◌≡◌, ◌+◌, ◌*◌, ◌<◌, ◌≤◌, ℕ, IfOk};
ghost use Rattle.slot_grid.specs.Block.{point_in};
ghost use Rattle.slot_grid.specs.Grid.{IsBlockPut, IsGrid, IsPut, point_at, slots_in_frame, with_point};
ghost use Rattle.slot_grid.specs.Image.{blank_grid};

use crate::words::{point_of_word, with_point};
use bits_core::NoMemory;
use std::alloc::Global;
use std::marker::Model;

/// How many symbols a slot has.
const SYMBOLS: usize = 14;

/// What stands at one place of a grid: nothing, or the QPSK point of two bits.
///
/// `P01` is the point of first bit 0 and second bit 1 (3GPP TS 38.211, 5.1.3).
#[derive(Clone, Copy, Debug, Default, PartialEq, Eq)]
pub enum Point {
    #[default]
    Empty,
    P00,
    P01,
    P10,
    P11,
}

/// The points of one slot: 14 symbols, and 12 subcarriers for each of its blocks.
#[derive(Debug, Drop)]
pub struct Grid {
    mu: u16,
    frame: u16,
    slot: u16,
    blocks: u16,
    /// A word for each symbol and block, symbol by symbol.
    words: Vec<u64>,
}

impl Model for Grid {
    ghost use Rattle.slot_grid.specs.Grid.{GridValue};
    ghost use Rattle.slot_grid.specs.View.{grid_of, IsStored};

    ghost Value = { GridValue };

    ghost view = { grid_of };

    ghost invariant = { IsStored };
}

impl Grid {
    /// The grid of a slot with no point at any place.
    ///
    /// `mu` is 0 to 3, `frame` 0 to 1,023, `slot` below `10 * 2^mu`, and `blocks` 6 to 275.
    pub fn blank(
        alloc: Global,
        mu: u16,
        frame: u16,
        slot: u16,
        blocks: u16,
    ) -> Result<Grid, NoMemory>
        requires mu { mu ≤ 3 }
        requires frame { frame ≤ 1023 }
        requires slot { slot < slots_in_frame mu }
        requires blocks_least { 6 ≤ blocks }
        requires blocks_most { blocks ≤ 275 }
        ensures { IfOk result (λ g. g ≡ blank_grid mu frame slot blocks) }
    {
        let size = SYMBOLS * blocks as usize;
        match vec![in alloc; 0; size] {
            Ok(words) => Ok(Grid {
                mu,
                frame,
                slot,
                blocks,
                words,
            }),
            Err(_) => Err(NoMemory),
        }
    }

    /// The numerology: the subcarriers are `15 * 2^mu` kHz apart.
    pub fn mu(&self) -> u16
        ensures value { result ≡ self.now.mu }
        ensures grid { IsGrid self.now }
    {
        self.mu
    }

    /// The frame that the slot is in.
    pub fn frame(&self) -> u16
        ensures value { result ≡ self.now.frame }
        ensures grid { IsGrid self.now }
    {
        self.frame
    }

    /// The slot's number in its frame.
    pub fn slot(&self) -> u16
        ensures value { result ≡ self.now.slot }
        ensures few { result < 80 }
        ensures grid { IsGrid self.now }
    {
        self.slot
    }

    /// How many blocks of 12 subcarriers the grid has.
    pub fn blocks(&self) -> u16
        ensures value { result ≡ self.now.blocks }
        ensures grid { IsGrid self.now }
    {
        self.blocks
    }

    /// The point at `symbol`, below 14, and `subcarrier`, below `12 * blocks`.
    pub fn get(&self, symbol: u8, subcarrier: u16) -> Point
        requires symbol { symbol < 14 }
        requires subcarrier { subcarrier < 12 * self.now.blocks }
        ensures { result ≡ point_at self.now symbol subcarrier }
    {
        let word = self.words[place(self.blocks, symbol, subcarrier / 12)];
        point_of_word(word, u32::from(subcarrier % 12))
    }

    /// The points of block `block` in `symbol`, which is below 14, in one word: its bits `2 * k` and `2 * k + 1` are those of
    /// the point at subcarrier `k` of the block, and its bit `24 + k` is 1 where there is a point.
    pub fn block(&self, symbol: u8, block: u16) -> u64
        requires symbol { symbol < 14 }
        requires block { block < self.now.blocks }
        ensures { (k : ℕ) → k < 12 → point_at self.now symbol (12 * block + k) ≡ point_in result k }
    {
        self.words[place(self.blocks, symbol, block)]
    }

    /// Writes the point at `symbol`, below 14, and `subcarrier`, below `12 * blocks`, and at no other place.
    ///
    /// The second clause says it place by place, and follows from the first.
    pub fn put(&mut self, symbol: u8, subcarrier: u16, point: Point)
        requires symbol { symbol < 14 }
        requires subcarrier { subcarrier < 12 * self.old.blocks }
        ensures grid { self.new ≡ with_point symbol subcarrier point self.old }
        ensures places { IsPut symbol subcarrier point self.old self.new }
    {
        let place = place(self.blocks, symbol, subcarrier / 12);
        self.words[place] = with_point(self.words[place], u32::from(subcarrier % 12), point);
    }

    /// Writes the points of block `block` in `symbol`, which is below 14, and at no other place: `word` has them as
    /// [`Grid::block`] gives them.
    pub fn put_block(&mut self, symbol: u8, block: u16, word: u64)
        requires symbol { symbol < 14 }
        requires block { block < self.old.blocks }
        ensures { IsBlockPut symbol block word self.old self.new }
    {
        let place = place(self.blocks, symbol, block);
        self.words[place] = word;
    }
}

/// Where the word of a symbol and a block stands in the list of words.
fn place(blocks: u16, symbol: u8, block: u16) -> usize
    ensures { result ≡ symbol * blocks + block }
{
    symbol as usize * blocks as usize + block as usize
}
