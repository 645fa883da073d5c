//! What holds of grants that are placed one after the other: laws over the definitions that the contracts of `Desk` name, as
//! the contracts of functions with nothing to do.
ghost use Rattle.cell_placer.specs.Earliest.{NamesTheEarliest};
ghost use Rattle.cell_placer.specs.OpenedDesk.{OpensADesk};
ghost use Rattle.cell_placer.specs.Written.{HearsEachAccepted, WritesTheAccepted};

/// The desk of a slot of a legal cell keeps what each desk keeps, has the handsets of the cell with their plans, and a
/// blank grid.
pub fn opens_a_desk()
    ensures { OpensADesk }
{}

/// The grid that grants leave is the blank grid overwritten with what the accepted ones write, in order.
pub fn writes_the_accepted()
    ensures { WritesTheAccepted }
{}

/// On the grid that grants leave, each accepted one is heard at its watch, as it was given.
pub fn hears_each_accepted()
    ensures { HearsEachAccepted }
{}

/// The accepted grant that is named as in the way is the earliest of those that have a REG of the watch.
pub fn names_the_earliest()
    ensures { NamesTheEarliest }
{}
