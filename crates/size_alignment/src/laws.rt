//! The law of the sizes, as the contract of a function that does nothing.
ghost use Rattle.size_alignment.specs.ToldApart.{SizesDiffer};

/// In sets of fallback and specific sets formats 0_0 and 0_1 never have the same size, and formats 1_0 and 1_1 neither.
pub fn sizes_differ()
    ensures { SizesDiffer }
{}
