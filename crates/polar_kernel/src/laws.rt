//! Laws of the word of a polar code, each the contract of a function that does nothing.
ghost use Rattle.polar_kernel.specs.Upward.{InputReadWithin, ZeroWordWithin};
ghost use Rattle.polar_kernel.specs.WordLaws.{WordIsOwnInverse};

/// The word of the word is the input bits, at each of the five lengths: a second `transform` undoes the first.
pub fn word_word()
    ensures { WordIsOwnInverse }
{}

/// On a set of places that is closed upwards, each input bit is the sum of the word's bits at the places of the set whose
/// binary ones contain those of its own: the input is read from the word on that set alone.
pub fn read_within()
    ensures { InputReadWithin }
{}

/// Where the input is 0 on a set of places that is closed upwards, the word is 0 on it too.
pub fn zero_within()
    ensures { ZeroWordWithin }
{}
