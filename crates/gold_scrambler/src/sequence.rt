//! The sequence of one start value: its next bit, and many at once.
ghost use Rattle.std.specs.Prelude.{◌≡◌, ◌+◌, ◌^◌, ◌<◌, ◌≤◌};
ghost use Rattle.gold_scrambler.specs.Gold.{next1, next2, gold, gold_bits};
ghost use Rattle.gold_scrambler.specs.Stretches.{HasBits};

use crate::jump::{first_after_offset, second_after_offset};
use crate::register::{TURN, first_window, register_after, second_window};
use bits_core::Coded;
use std::marker::Model;

/// The top bit of a register of 31 bits.
const TOP: u32 = 1 << 30;

/// The sequence of one start value, standing before one of its bits.
///
/// At most 2^30 bits of it are passed in all.
#[derive(Drop)]
pub struct Gold {
    first: u32,
    second: u32,
    c_init: u32,
    at: u32,
}

impl Model for Gold {
    ghost use Rattle.std.specs.Prelude.{◌+◌, ◌^◌, ◌<◌, ◌≤◌};
    ghost use Rattle.gold_scrambler.specs.Gold.{GoldValue};
    ghost use Rattle.gold_scrambler.specs.Standing.{IsStanding};

    ghost Value = { GoldValue };

    ghost view = { λ g. record { c_init = g.c_init; at = g.at } };

    ghost invariant = { λ g. IsStanding g.c_init g.at g.first g.second };
}

impl Gold {
    /// The sequence with the start value `c_init`, which is below 2^31, before its first bit.
    pub fn new(c_init: u32) -> Gold
        requires { c_init < 2 ^ 31 }
        ensures c_init { result.c_init ≡ c_init }
        ensures at { result.at ≡ 0 }
    {
        Gold {
            first: first_after_offset(),
            second: second_after_offset(c_init),
            c_init,
            at: 0,
        }
    }

    /// The next bit of the sequence.
    pub fn next_bit(&mut self) -> bool
        requires { self.old.at < 2 ^ 30 }
        ensures bit { result ≡ gold self.old.c_init self.old.at }
        ensures c_init { self.new.c_init ≡ self.old.c_init }
        ensures at { self.new.at ≡ self.old.at + 1 }
    {
        let bit = self.first % 2 != self.second % 2;
        self.first = next_first(self.first);
        self.second = next_second(self.second);
        self.at += 1;
        bit
    }

    /// Passes the next `count` bits.
    pub fn skip(&mut self, count: u32)
        requires { self.old.at + count ≤ 2 ^ 30 }
        ensures c_init { self.new.c_init ≡ self.old.c_init }
        ensures at { self.new.at ≡ self.old.at + count }
    {
        for _turn in 0..count / TURN {
            self.next_bits(TURN);
        }
        self.next_bits(count % TURN);
    }

    /// Replaces `out` by the next `count` bits.
    pub fn fill(&mut self, out: &mut Coded, count: usize)
        requires room { count ≤ 1728 }
        requires within { self.old.at + count ≤ 2 ^ 30 }
        ensures bits { out.new ≡ gold_bits self.old.c_init self.old.at count }
        ensures c_init { self.new.c_init ≡ self.old.c_init }
        ensures at { self.new.at ≡ self.old.at + count }
    {
        let mut words = [0; 27];
        for index in 0..count.div_ceil(64) {
            words[index] = self.next_word((count - 64 * index).min(64) as u32);
        }
        *out = Coded::of_words(words, count);
    }

    /// The next `count` bits of the sequence, at most 64, low place first.
    fn next_word(&mut self, count: u32) -> u64
        requires word { count ≤ 64 }
        requires within { self.old.at + count ≤ 2 ^ 30 }
        ensures bits { HasBits (gold self.old.c_init) self.old.at count result }
        ensures c_init { self.new.c_init ≡ self.old.c_init }
        ensures at { self.new.at ≡ self.old.at + count }
    {
        let low = count.min(TURN);
        let middle = (count - low).min(TURN);
        let high = count - low - middle;
        self.next_bits(low) | self.next_bits(middle) << low | self.next_bits(high) << (low + middle)
    }

    /// The next `count` bits of the sequence, at most 28, low place first. Zeros stand past them.
    fn next_bits(&mut self, count: u32) -> u64
        requires turn { count ≤ 28 }
        requires within { self.old.at + count ≤ 2 ^ 30 }
        ensures bits { HasBits (gold self.old.c_init) self.old.at count result }
        ensures small { result < 2 ^ count }
        ensures c_init { self.new.c_init ≡ self.old.c_init }
        ensures at { self.new.at ≡ self.old.at + count }
    {
        let first = first_window(self.first);
        let second = second_window(self.second);
        self.first = register_after(first, count);
        self.second = register_after(second, count);
        self.at += count;
        (first ^ second) & ((1 << count) - 1)
    }
}

/// The first register one step on.
fn next_first(register: u32) -> u32
    requires { register < 2 ^ 31 }
    ensures next { result ≡ next1 register }
    ensures small { result < 2 ^ 31 }
{
    register / 2 + (register / 8 + register) % 2 * TOP
}

/// The second register one step on.
fn next_second(register: u32) -> u32
    requires { register < 2 ^ 31 }
    ensures next { result ≡ next2 register }
    ensures small { result < 2 ^ 31 }
{
    register / 2 + (register / 8 + register / 4 + register / 2 + register) % 2 * TOP
}
