//! What holds of all reports, over the definitions that the contracts of `Searcher` name, and what threads may do with a
//! searcher: each law as the contract of a function with nothing to do.
ghost use Rattle.std.specs.Thread.{IsSend, IsSync};
ghost use Rattle.blind_search.specs.contracts.searcher.Searcher as searcher;
ghost use Rattle.blind_search.specs.Report.{OneReport};

/// The report of a list of watches is the one list of entries that rises by watch, has nothing in it but what the grid spells
/// at its watches, and leaves out no watch at which the grid spells something.
pub fn one_report()
    ensures { OneReport }
{}

/// A searcher may be moved to another thread, and several threads may read one searcher at once.
pub fn threads_may_have_searchers()
    ensures moved { IsSend searcher.the_row }
    ensures shared { IsSync searcher.the_row }
{}
