//! The code of the blocks of one length that are sent in one number of bits (3GPP TS 38.212, 5.3.1 and 5.4.1).
ghost use Rattle.polar_chain.specs.CodeOfBlock.{code_by};
ghost use Rattle.polar_chain.specs.CodeShape.{IsByTables, IsCode, coded, word_len};
ghost use Rattle.polar_chain.specs.Decoding.{HasNoBlock, IsBlockOf, IsOutcome};
ghost use Rattle.polar_sets.specs.Enough.{Enough};
ghost use Rattle.rate_match.specs.Repeats.{IsFirstDiffering, RepeatsBelow};
ghost use Rattle.std.specs.Prelude.{ℕ, ◌≡◌, ◌≤◌, ◌↔◌, Bool, IsTrue, List, length};

use crate::NoWord;
use crate::carriers::carriers_of;
use crate::input::{lay, read};
use crate::known::tested_words;
use crate::length::exponent_of;
use crate::others::others_are_zero;
use arrayvec::ArrayVec;
use bits_core::{BitRow, Block, Coded};
use polar_kernel::transform_words;
use polar_sets::{PositionSet, input_order, positions};
use rate_match::{Differs, length_for, select_words, unselect_words};
use std::marker::Model;
use table_files::Tables;

/// How the blocks of one length are coded, and the received bits decoded: the input order of their bits, the positions that
/// carry them, which of these carries each bit, and the flags of those that are tested to be 0.
#[derive(Debug, Drop)]
pub struct Code {
    block_len: usize,
    coded_len: usize,
    order: ArrayVec<u16, 164>,
    positions: PositionSet,
    carriers: [u16; 164],
    tested: [u64; 8],
}

impl Model for Code {
    ghost use Rattle.bits_core.specs.Bits.{bit_of};
    ghost use Rattle.bits_core.specs.Row.{word_bit};
    ghost use Rattle.polar_chain.specs.Carriers.{AreCarriers};
    ghost use Rattle.polar_chain.specs.CodeShape.{CodeShape, IsCode, shape};
    ghost use Rattle.polar_chain.specs.TestedPlaces.{AreTested};
    ghost use Rattle.rate_match.specs.MotherCode.{length_of};

    ghost Value = { CodeShape };

    ghost view = { λ c. shape c.block_len c.coded_len c.order.items c.positions };

    ghost invariant = { λ c. IsCode (shape c.block_len c.coded_len c.order.items c.positions) ×
        AreCarriers (length_of c.block_len c.coded_len) c.order.items (bit_of c.positions) c.carriers ×
        AreTested (length_of c.block_len c.coded_len) c.block_len c.coded_len (bit_of c.positions) (word_bit c.tested) };
}

impl Code {
    /// The code of blocks of `k` bits that are sent in `e`, by the two tables.
    pub fn of(tables: &Tables, k: usize, e: usize) -> Code
        requires block { 1 ≤ k }
        requires longest { k ≤ 164 }
        requires sent { 1 ≤ e }
        requires most { e ≤ 1728 }
        requires enough { Enough k e }
        ensures tables { IsByTables tables.now.reliability tables.now.input_order k e result }
        ensures code { (c : List Bool) →
            coded result c ≡ code_by tables.now.reliability tables.now.input_order k e c }
        ensures sound { IsCode result }
    {
        let order = input_order(&tables.input_order, k);
        let positions = positions(&tables.reliability, k, e);
        let len = length_for(k, e);
        let carriers = carriers_of(order.as_slice(), &positions, len);
        let tested = tested_words(len, k, e, &positions);
        Code {
            block_len: k,
            coded_len: e,
            order,
            positions,
            carriers,
            tested,
        }
    }

    /// Whether it is the code of blocks of `k` bits that are sent in `e`.
    pub fn is_for(&self, k: usize, e: usize) -> bool
        ensures { IsTrue result ↔ ((self.now.block_len ≡ k) × (self.now.coded_len ≡ e)) }
    {
        self.block_len == k && self.coded_len == e
    }

    /// The code of a block.
    pub fn encode(&self, c: &Block) -> Coded
        requires { length c.now ≡ self.now.block_len }
        ensures code { result ≡ coded self.now c.now }
        ensures len { length result ≡ self.now.coded_len }
    {
        let len = length_for(self.block_len, self.coded_len);
        let n = exponent_of(len);
        let mut bits = lay(c, &self.carriers);
        transform_words(&mut bits, n);
        let mut out = Coded::new();
        select_words(&bits, n, self.block_len, self.coded_len, &mut out);
        out
    }

    /// The block whose code the received bits are, or why there is none.
    pub fn decode(&self, bits: &Coded) -> Result<Block, NoWord>
        requires { length bits.now ≡ self.now.coded_len }
        ensures word { (c : List Bool) → (result ≡ Ok c) ↔ IsBlockOf self.now bits.now c }
        ensures repeat { (at : ℕ) → (result ≡ Err (NoWord.Repeat at)) ↔ IsFirstDiffering (word_len self.now) bits.now at }
        ensures frozen { (result ≡ Err NoWord.Frozen) ↔
            (RepeatsBelow (word_len self.now) bits.now (length bits.now) × HasNoBlock self.now bits.now) }
    {
        self.decode_core(bits)
    }

    /// What the received bits are.
    fn decode_core(&self, bits: &Coded) -> Result<Block, NoWord>
        requires { length bits.now ≡ self.now.coded_len }
        ensures outcome { IsOutcome self.now bits.now result }
        ensures sound { IsCode self.now }
    {
        let len = length_for(self.block_len, self.coded_len);
        let n = exponent_of(len);
        let mut word = [0; 8];
        if let Err(Differs { at }) = unselect_words(bits, self.block_len, n, &mut word) {
            return Err(NoWord::Repeat { at });
        }
        transform_words(&mut word, n);
        let input = BitRow::of_words(word, len);
        if !others_are_zero(&input, &self.tested) {
            return Err(NoWord::Frozen);
        }
        Ok(read(&input, &self.carriers, self.block_len))
    }
}
