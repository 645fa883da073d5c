//! Laws of control resource sets, as the contracts of functions with nothing to do.
ghost use Rattle.coreset_map.specs.Laws.{CcesAreApart};

/// Different CCEs of a control resource set share no REG.
pub fn cces_are_apart()
    ensures { CcesAreApart }
{}
