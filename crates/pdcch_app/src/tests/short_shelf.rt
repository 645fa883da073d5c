//! A shelf that has no memory.
use outside::{FetchFault, Shelf};
use std::alloc::Global;

/// A shelf that finds no memory for any object.
#[derive(Drop)]
pub struct ShortShelf;

impl Shelf for ShortShelf {
    ghost use Rattle.std.specs.Prelude.{None, []};

    ghost shows = { λ _. record { told = λ _. None; faults = 0; longs = 0; missed = [] } };

    ghost may = { λ _ _. Unit {0} };

    fn fetch(
        &mut self,
        _alloc: Global,
        _name: &str,
        _limit: usize,
        into: &mut Vec<u8>,
    ) -> Result<(), FetchFault> {
        into.clear();
        Err(FetchFault::NoMemory)
    }
}
