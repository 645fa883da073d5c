//! What the text says of a grid, as the contracts of functions that do nothing.
ghost use Rattle.grid_file.specs.FoundGrid.{ReadsExactly};
ghost use Rattle.grid_file.specs.GridText.{OneGridOfText};

/// Each text is that of one grid at most.
pub fn one_grid_of_text()
    ensures { OneGridOfText }
{}

/// The reading that the clause `found` of `read_grid` names gives a grid exactly where the bytes are its text, and a
/// place exactly where they leave every grid's text there.
pub fn reads_exactly()
    ensures { ReadsExactly }
{}
