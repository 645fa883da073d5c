ghost use Rattle.std.specs.Prelude.{ℕ, List};
ghost use Rattle.outside.specs.Causes.{Fetches};
ghost use Rattle.outside.specs.Views.{ShelfView};

use crate::FetchFault;
use std::alloc::Global;

/// Where objects, as files, are fetched from by name.
///
/// `shows` is what is seen of the shelf: the bytes of its objects, where it tells them, how many calls failed and how
/// many found an object too long, and the names of both in order. `may` holds of the names that may be asked for.
pub trait Shelf {
    ghost shows: { Self → ShelfView };

    ghost may: { Self → List ℕ → Type 0 };

    /// Empties `into` and puts the bytes of the object there, of which there may be at most `limit`.
    /// After a refusal `into` is empty. Where there is no memory to note the name of a miss, it isn't counted, and
    /// the answer is `NoMemory`.
    fn fetch(
        &mut self,
        alloc: Global,
        name: &str,
        limit: usize,
        into: &mut Vec<u8>,
    ) -> Result<(), FetchFault>
        requires { may self.old name.now }
        ensures fetched { Fetches (shows self.old) (shows self.new) name.now limit into.new.items result }
        ensures may { (n : List ℕ) → may self.old n → may self.new n }
        ensures may_back { (n : List ℕ) → may self.new n → may self.old n };
}
