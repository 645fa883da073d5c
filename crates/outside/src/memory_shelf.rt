ghost use Rattle.std.specs.Prelude.{◌≡◌, ◌⊎◌, ℕ, List, [], map};
ghost use Rattle.std.specs.Result.{IsErrOf};
ghost use Rattle.outside.specs.Causes.{Fetches, next_count};

use crate::misses::Misses;
use crate::objects::{find, give};
use crate::{FetchFault, NamedBytes, Shelf};
use std::alloc::Global;
use std::marker::Model;

/// A shelf that stands in memory. Of two objects with one name the first counts. It tells what it holds.
#[derive(Drop)]
pub struct MemoryShelf {
    objects: Vec<NamedBytes>,
    failing: Vec<u64>,
    calls: u64,
    misses: Misses,
}

impl Model for MemoryShelf {
    ghost use Rattle.std.specs.Prelude.{map};
    ghost use Rattle.outside.specs.Memory.{Shelved};

    ghost Value = { Shelved };

    ghost use Rattle.outside.specs.Named.{object_of};

    ghost view = { λ s. record {
      objects = map object_of s.objects.items;
      failing = s.failing.items;
      calls = s.calls;
      faults = s.misses.faults;
      longs = s.misses.longs;
      missed = s.misses.missed;
    } };
}

impl MemoryShelf {
    ghost use Rattle.outside.specs.Named.{object_of};

    /// The calls of `fetch` are numbered from 0, and those whose number is in `failing` fail, as do those for a
    /// name that no object has.
    pub fn new(objects: Vec<NamedBytes>, failing: Vec<u64>) -> MemoryShelf
        ensures { result ≡ record {
          objects = map object_of objects.items;
          failing = failing.items;
          calls = 0;
          faults = 0;
          longs = 0;
          missed = [];
        } }
    {
        MemoryShelf {
            objects,
            failing,
            calls: 0,
            misses: Misses::new(),
        }
    }
}

impl Shelf for MemoryShelf {
    ghost use Rattle.outside.specs.Memory.{bytes_of, counts_of, FetchFails, FindsTooMuch};
    ghost use Rattle.outside.specs.Counted.{counts_after};

    ghost shows = { λ s. record { told = bytes_of s.objects; faults = s.faults; longs = s.longs; missed = s.missed } };

    ghost may = { λ _ _. Unit {0} };

    fn fetch(
        &mut self,
        alloc: Global,
        name: &str,
        limit: usize,
        into: &mut Vec<u8>,
    ) -> Result<(), FetchFault>
        ensures fetched { Fetches (record {
          told = bytes_of self.old.objects;
          faults = self.old.faults;
          longs = self.old.longs;
          missed = self.old.missed;
        })
            (record {
              told = bytes_of self.new.objects;
              faults = self.new.faults;
              longs = self.new.longs;
              missed = self.new.missed;
            })
            name.now limit into.new.items result }

        ensures counted { counts_of self.new ≡ counts_after (counts_of self.old) name.now result }

        // Which calls fail and which find too much; where the name can't be noted, the answer is `NoMemory`.
        ensures failed { IsErrOf result FetchFault.Failed → FetchFails self.old name.now }
        ensures fails { FetchFails self.old name.now → IsErrOf result FetchFault.Failed ⊎ IsErrOf result FetchFault.NoMemory }
        ensures longer { IsErrOf result FetchFault.TooLong → FindsTooMuch self.old name.now limit }
        ensures long { FindsTooMuch self.old name.now limit
            → IsErrOf result FetchFault.TooLong ⊎ IsErrOf result FetchFault.NoMemory }
        ensures numbered { self.new.calls ≡ next_count self.old.calls }
        ensures set_up { (self.new.objects ≡ self.old.objects) × (self.new.failing ≡ self.old.failing) }
    {
        into.clear();
        let call = self.calls;
        self.calls = call.saturating_add(1);
        if self.failing.contains(&call) {
            return self.misses.settle(alloc, name, Err(FetchFault::Failed));
        }
        let Some(bytes) = find(self.objects.as_slice(), name) else {
            return self.misses.settle(alloc, name, Err(FetchFault::Failed));
        };
        let answer = give(bytes, limit, into);
        self.misses.settle(alloc, name, answer)
    }
}
