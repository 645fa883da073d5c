ghost use Rattle.std.specs.Prelude.{◌≡◌, ◌≢◌, ◌<◌, ◌≤◌, ◌↔◌, ◌++◌, ℕ, [], List, Some, take, length, IfOk, OnOk, OnErr};
ghost use Rattle.std.specs.Prelude.{IsErr, Ok, Err};
ghost use Rattle.outside.specs.Causes.{Rose, next_count};

use crate::{Failed, Sink, SinkFault};
use std::alloc::Global;
use std::marker::Model;

/// A sink that stands in memory, with room for a number of bytes that is set aside when it is made, so that `put`
/// takes no memory. It tells what it took.
#[derive(Drop)]
pub struct MemorySink {
    bytes: Vec<u8>,
    room: usize,
    width: usize,
    failing: Vec<u64>,
    calls: u64,
    faults: u64,
}

impl Model for MemorySink {
    ghost use Rattle.std.specs.Prelude.{◌≤◌, length, vec_capacity};
    ghost use Rattle.outside.specs.Memory.{Filled};

    ghost Value = { Filled };

    ghost view = { λ s. record {
      bytes = s.bytes.items;
      room = s.room;
      width = s.width;
      failing = s.failing.items;
      calls = s.calls;
      faults = s.faults;
    } };

    ghost invariant = { λ s. (length s.bytes.items ≤ s.room) × (s.room ≤ vec_capacity s.bytes) × (1 ≤ s.width) };
}

impl MemorySink {
    /// A sink with room for `room` bytes, which takes at most `width` at once. The calls of `put` with a piece
    /// that isn't empty are numbered from 0, and those whose number is in `failing` fail, as do those that find
    /// no room left.
    ///
    /// # Errors
    ///
    /// `NoMemory` where the room can't be set aside.
    pub fn new(
        alloc: Global,
        room: usize,
        width: usize,
        failing: Vec<u64>,
    ) -> Result<MemorySink, SinkFault>
        requires { 1 ≤ width }
        ensures { IfOk result (λ sink. sink ≡ record {
          bytes = [];
          room = room;
          width = width;
          failing = failing.items;
          calls = 0;
          faults = 0;
        }) }
    {
        match Vec::with_capacity(alloc, room) {
            Ok(bytes) => Ok(MemorySink {
                bytes,
                room,
                width,
                failing,
                calls: 0,
                faults: 0,
            }),
            Err(_) => Err(SinkFault::NoMemory),
        }
    }

    /// What was taken.
    pub fn bytes(&self) -> &[u8]
        ensures { result.now ≡ self.now.bytes }
    {
        self.bytes.as_slice()
    }
}

impl Sink for MemorySink {
    ghost use Rattle.outside.specs.Memory.{PutFails, share_of};

    ghost shows = { λ s. record { taken = Some s.bytes; faults = s.faults } };

    fn put(&mut self, piece: &[u8]) -> Result<usize, Failed>
        ensures empty { piece.now ≡ [] → result ≡ Ok 0 }
        ensures some { piece.now ≢ [] → IfOk result (λ n. 1 ≤ n) }
        ensures within { IfOk result (λ n. n ≤ length piece.now) }
        ensures takes { IfOk result (λ n. self.new.bytes ≡ self.old.bytes ++ take n piece.now) }
        ensures refused { OnErr result (self.new.bytes ≡ self.old.bytes) }
        ensures failed { OnErr result (Rose self.old.faults self.new.faults) }
        ensures kept { OnOk result (self.new.faults ≡ self.old.faults) }
        ensures later { self.old.faults ≤ self.new.faults }

        ensures counted { OnErr result (self.new.faults ≡ next_count self.old.faults) }
        ensures fails { IsErr result ↔ ((piece.now ≢ []) × PutFails self.old) }
        ensures share { IfOk result (λ n. n ≡ share_of self.old piece.now) }
        ensures numbered { piece.now ≢ [] → self.new.calls ≡ next_count self.old.calls }
        ensures unnumbered { piece.now ≡ [] → self.new.calls ≡ self.old.calls }
        ensures set_up { (self.new.room ≡ self.old.room) × (self.new.width ≡ self.old.width) ×
            (self.new.failing ≡ self.old.failing) }
    {
        if piece.is_empty() {
            return Ok(0);
        }
        let call = self.calls;
        self.calls = call.saturating_add(1);
        let left = self.room - self.bytes.len();
        if self.failing.contains(&call) || left == 0 {
            self.faults = self.faults.saturating_add(1);
            return Err(Failed);
        }
        let share = self.width.min(left).min(piece.len());
        match self.bytes.extend_from_slice(&piece[..share]) {
            Ok(()) => Ok(share),
            Err(_) => unreachable!(),
        }
    }
}
