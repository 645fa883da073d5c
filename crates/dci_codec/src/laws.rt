//! What holds of all spellings and of what is heard: laws over the definitions that the contracts of `spell` and `hear`
//! name, as the contracts of functions with nothing to do.
ghost use Rattle.dci_codec.specs.Answer.{TellsTheAnswer};
ghost use Rattle.dci_codec.specs.Spelled.{HearsWhatWasSpelled};
ghost use Rattle.dci_codec.specs.TheSpelling.{FindsWhatIsSpelled, TestsWhatIsSpelled};

/// The test of a spelling tells whether the grid spells it, at every watch, be its places on the grid or not.
pub fn tests_what_is_spelled()
    ensures { TestsWhatIsSpelled }
{}

/// What is found among all spellings is exactly what the grid spells, so it spells at most one.
pub fn finds_what_is_spelled()
    ensures { FindsWhatIsSpelled }
{}

/// What was spelled at a watch is heard there, with the shown values among those of all rows.
pub fn hears_what_was_spelled()
    ensures { HearsWhatWasSpelled }
{}

/// The answer at a watch as a function is the one that the stages of hearing tell, and the only one.
pub fn tells_the_answer()
    ensures { TellsTheAnswer }
{}
