ghost use Rattle.std.specs.Prelude.{◌≡◌, ◌<◌, ◌⊎◌, ℕ, List, [], map, length};
ghost use Rattle.std.specs.Result.{IsErrOf};
ghost use Rattle.outside.specs.Causes.{Fetches};

use crate::misses::Misses;
use crate::objects::{find, give};
use crate::{FetchFault, NamedBytes, Shelf};
use std::alloc::Global;
use std::marker::Model;

/// A shelf that stands in memory and never fails. Of two objects with one name the first counts, and a name that no
/// object has is that of an empty one. So it tells the bytes of every name.
#[derive(Drop)]
pub struct SureShelf {
    objects: Vec<NamedBytes>,
    misses: Misses,
}

impl Model for SureShelf {
    ghost use Rattle.std.specs.Prelude.{◌≡◌, map};
    ghost use Rattle.outside.specs.Sure.{Held};

    ghost Value = { Held };

    ghost use Rattle.outside.specs.Named.{object_of};

    ghost view = { λ s. record {
      objects = map object_of s.objects.items;
      longs = s.misses.longs;
      missed = s.misses.missed;
    } };

    ghost invariant = { λ s. s.misses.faults ≡ 0 };
}

impl SureShelf {
    ghost use Rattle.outside.specs.Named.{object_of};

    /// A shelf of these objects.
    pub fn new(objects: Vec<NamedBytes>) -> SureShelf
        ensures { result ≡ record { objects = map object_of objects.items; longs = 0; missed = [] } }
    {
        SureShelf {
            objects,
            misses: Misses::new(),
        }
    }
}

impl Shelf for SureShelf {
    ghost use Rattle.outside.specs.Counted.{counts_after};
    ghost use Rattle.outside.specs.Sure.{held_of, told_by};

    ghost shows = { λ s. record { told = told_by s.objects; faults = 0; longs = s.longs; missed = s.missed } };

    ghost may = { λ _ _. Unit {0} };

    fn fetch(
        &mut self,
        alloc: Global,
        name: &str,
        limit: usize,
        into: &mut Vec<u8>,
    ) -> Result<(), FetchFault>
        ensures fetched { Fetches
            (record {
              told = told_by self.old.objects;
              faults = 0;
              longs = self.old.longs;
              missed = self.old.missed;
            })
            (record {
              told = told_by self.new.objects;
              faults = 0;
              longs = self.new.longs;
              missed = self.new.missed;
            })
            name.now limit into.new.items result }

        ensures counted { record { faults = 0; longs = self.new.longs; missed = self.new.missed }
            ≡ counts_after (record { faults = 0; longs = self.old.longs; missed = self.old.missed }) name.now result }

        // It never fails. Which calls find too much; where the name can't be noted, the answer is `NoMemory`.
        ensures sure { IsErrOf result FetchFault.Failed → ⊥ }
        ensures longer { IsErrOf result FetchFault.TooLong → limit < length (held_of self.old.objects name.now) }
        ensures long { limit < length (held_of self.old.objects name.now)
            → IsErrOf result FetchFault.TooLong ⊎ IsErrOf result FetchFault.NoMemory }
        ensures set_up { self.new.objects ≡ self.old.objects }
    {
        into.clear();
        let bytes = find(self.objects.as_slice(), name).unwrap_or(&[]);
        let answer = give(bytes, limit, into);
        self.misses.settle(alloc, name, answer)
    }
}
