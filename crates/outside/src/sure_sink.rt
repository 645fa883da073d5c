ghost use Rattle.std.specs.Prelude.{◌≡◌, ◌≢◌, ◌≤◌, ◌+◌, ℕ, [], min, length, None, Ok, IfOk, OnErr};
ghost use Rattle.outside.specs.Causes.{last_count};

use crate::{Failed, Sink};
use std::marker::Model;

/// A sink that takes all and never fails. It keeps how many bytes it took and not the bytes, so it tells nothing.
#[derive(Drop)]
pub struct SureSink {
    counted: u64,
}

impl Model for SureSink {
    ghost use Rattle.std.specs.Prelude.{ℕ};

    ghost Value = { ℕ };

    ghost view = { λ s. s.counted };
}

impl SureSink {
    /// A sink that has taken nothing.
    pub fn new() -> SureSink
        ensures { result ≡ 0 }
    {
        SureSink { counted: 0 }
    }

    /// How many bytes were taken, which stands still at 2^64 - 1.
    pub fn counted(&self) -> u64
        ensures { result ≡ self.now }
    {
        self.counted
    }
}

impl Sink for SureSink {
    ghost shows = { λ _. record { taken = None; faults = 0 } };

    fn put(&mut self, piece: &[u8]) -> Result<usize, Failed>
        ensures all { result ≡ Ok (length piece.now) }
        ensures counted { self.new ≡ min (self.old + length piece.now) last_count }
    {
        self.counted = self.counted.saturating_add(piece.len() as u64);
        Ok(piece.len())
    }
}
