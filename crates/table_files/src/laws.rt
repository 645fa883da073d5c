//! The laws of the reading of a table, and what threads may do with the tables, each as the contract of a function that does
//! nothing.
ghost use Rattle.std.specs.Thread.{IsSend, IsSync};
ghost use Rattle.table_files.specs.contracts.tables.Tables as tables;
ghost use Rattle.table_files.specs.FirstTableFault.{FindsFirstFault};
ghost use Rattle.table_files.specs.SpelledTables.{ReadWhereSpelled};

/// A text is read as a list exactly where it spells that list, with any zeros before its numbers and any separators
/// between them and at either end, and the list has each number below the table's size once.
pub fn read_where_spelled()
    ensures { ReadWhereSpelled }
{}

/// A text is refused with a fault exactly where that is its first: what stands before it spells numbers of a table, no two
/// of them equal, and there stands a byte that is neither digit nor separator, a number that is too large or stood before,
/// or the end of the text with too few numbers.
pub fn finds_first_fault()
    ensures { FindsFirstFault }
{}

/// The tables may be moved to another thread, and several threads may read them at once.
pub fn threads_may_have_tables()
    ensures moved { IsSend tables.the_row }
    ensures shared { IsSync tables.the_row }
{}
