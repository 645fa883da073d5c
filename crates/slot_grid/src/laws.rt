//! What threads may do with a grid: a law as the contract of a function with nothing to do.
ghost use Rattle.slot_grid.specs.contracts.places.Grid as grid;
ghost use Rattle.std.specs.Thread.{IsSend, IsSync};

/// A grid may be moved to another thread, and several threads may read one grid at once.
pub fn threads_may_have_grids()
    ensures moved { IsSend grid.the_row }
    ensures shared { IsSync grid.the_row }
{}
