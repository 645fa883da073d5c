//! The reference bits of each symbol of a slot, made once.
ghost use Rattle.std.specs.Prelude.{◌≡◌, ◌*◌, ◌^◌, ◌<◌, slice_index};
ghost use Rattle.gold_scrambler.specs.Gold.{gold};
ghost use Rattle.gold_scrambler.specs.Stretches.{HasBits};
ghost use Rattle.dmrs_qpsk.specs.KeptReferences.{AreBitsOf, AreKept};
ghost use Rattle.dmrs_qpsk.specs.ReferencePoints.{reference_start};

use crate::reference::sequence_start;
use bits_core::Coded;
use gold_scrambler::Gold;
use std::marker::Model;

/// How many blocks have their bits in one word.
const BLOCKS: usize = 10;

/// How many words the bits of one symbol take: 275 blocks of 6 bits.
const WORDS: usize = 28;

/// The start value of a symbol whose bits weren't asked for: no sequence has it.
const NONE: u32 = 1 << 31;

/// The bits of the reference points of each symbol of a slot, by the start value that was asked for last there (3GPP TS 38.211,
/// 7.4.1.3.1): whoever puts or takes the bits of many candidates has those of a symbol made once.
#[derive(Debug, Drop)]
pub struct References {
    starts: [u32; 14],
    words: [[u64; 28]; 14],
}

impl Model for References {
    ghost use Rattle.dmrs_qpsk.specs.KeptReferences.{AreKept};

    ghost Value = { Unit {0} };

    ghost view = { λ _. tt };

    ghost invariant = { λ r. AreKept r.starts r.words };
}

impl References {
    /// No bits yet.
    pub fn new() -> References {
        References {
            starts: [NONE; 14],
            words: [[0; 28]; 14],
        }
    }

    /// The six bits of the three reference points of a common block, low place first, and other bits above them.
    pub(crate) fn bits_of(&mut self, slot: u16, symbol: u8, id: u16, block: u16) -> u64
        requires slot { slot < 80 }
        requires symbol { symbol < 14 }
        requires block { block < 275 }
        ensures { HasBits (gold (reference_start slot symbol id)) (6 * block) 6 result }
    {
        let start = sequence_start(slot, symbol, id);
        let at = usize::from(symbol);
        turn(&mut self.starts, &mut self.words, at, start);
        let block = usize::from(block);
        self.words[at][block / BLOCKS] >> (6 * (block % BLOCKS))
    }
}

/// Makes the bits of symbol `at` those of a start value, where they aren't.
fn turn(starts: &mut [u32; 14], words: &mut [[u64; 28]; 14], at: usize, start: u32)
    requires kept { AreKept starts.old words.old }
    requires at { at < 14 }
    requires start { start < 2 ^ 31 }
    ensures kept { AreKept starts.new words.new }
    ensures start { slice_index starts.new at ≡ start }
{
    if starts[at] != start {
        words[at] = words_of(start);
        starts[at] = start;
    }
}

/// The bits of the reference points of all blocks by the sequence of a start value, ten blocks a word.
fn words_of(start: u32) -> [u64; 28]
    requires { start < 2 ^ 31 }
    ensures { AreBitsOf start result }
{
    let mut gold = Gold::new(start);
    let mut row = Coded::new();
    let mut words = [0; WORDS];
    for index in 0..WORDS {
        gold.fill(&mut row, 6 * BLOCKS);
        words[index] = row.word(0);
    }
    words
}
