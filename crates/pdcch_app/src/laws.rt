//! What a run of the program promises: laws over the definitions that the contract of `run` names, as the contracts of
//! functions with nothing to do. Those of every run, whatever its commands, stand in `run_steps`.
ghost use Rattle.pdcch_app.specs.Hearing.{HearsWhatIsWritten, ReportsWhatIsSpelled};
ghost use Rattle.pdcch_app.specs.Promises.{WritesEveryList, SearchesEveryGrid, ExplainsEveryWatch, SweepsTheLoad};
ghost use Rattle.pdcch_app.specs.Endings.{
  EndsByItsCause,
  EndsAsUsage,
  EndsAsSettingsRefused,
  EndsAsTableRefused,
  EndsAsGrantsFileRefused,
  EndsAsGridRefused,
  EndsAsReadFaultOfAFile,
  EndsAsFileTooLong,
  EndsAsNoSuch,
  EndsAsSlotRefused,
  EndsAsGrantsRefused,
  EndsAsDone,
};
ghost use Rattle.pdcch_app.specs.Spelling.{LegalWordsAreSpelled, ReadsWhatIsSpelled};

/// Words are legal for a command exactly where they are its name and then its arguments, options at any place.
pub fn legal_words_are_spelled()
    ensures { LegalWordsAreSpelled }
{}

/// The arguments that a command is written with are those that are read.
pub fn reads_what_is_spelled()
    ensures { ReadsWhatIsSpelled }
{}

/// Every legal cell, any two tables and every legal list of grants give the text of one grid, and a line for each grant that
/// is refused.
pub fn writes_every_list()
    ensures { WritesEveryList }
{}

/// Every legal cell, any two tables and every grid of the cell give the report of what the grid spells.
pub fn searches_every_grid()
    ensures { SearchesEveryGrid }
{}

/// Every legal cell, any two tables, every grid of the cell and every watch of a handset of the cell in the grid's slot give the
/// lines of that watch, with the answer that the stages of hearing tell.
pub fn explains_every_watch()
    ensures { ExplainsEveryWatch }
{}

/// Any two tables give the summary of the first slots of the generated load, as many as the words say.
pub fn sweeps_the_load()
    ensures { SweepsTheLoad }
{}

/// What is printed of each reported handset has just what the grid spells at its watches.
pub fn reports_what_is_spelled()
    ensures { ReportsWhatIsSpelled }
{}

/// What `write` prints is a grid that `search` reads, and its report has each accepted grant of a reported handset, as
/// it was given.
pub fn hears_what_is_written()
    ensures { HearsWhatIsWritten }
{}

/// An outcome has a status exactly where the cause of that status is there: each outcome has one cause, and each cause one
/// status.
pub fn ended_by_its_cause()
    ensures { EndsByItsCause }
{}

/// A run ends as a usage error exactly where the words are of no command. Here and below a run with the cause may end for
/// want of memory or as a fault of writing instead, and in no other way.
pub fn ends_as_usage()
    ensures { EndsAsUsage }
{}

/// A run ends with refused settings exactly where it is to write, to search or to explain and the first file is no
/// legal settings.
pub fn ends_as_settings_refused()
    ensures { EndsAsSettingsRefused }
{}

/// A run ends with a refused table exactly where every file before it was read and it is no reliability table or no input order:
/// the second or the third file behind the settings, and in `sweep`, which reads no settings, the first or the second.
pub fn ends_as_table_refused()
    ensures { EndsAsTableRefused }
{}

/// A run ends with a refused file of grants exactly where it is to write, the settings and both tables were read, and the
/// last file is no legal list of grants.
pub fn ends_as_grants_file_refused()
    ensures { EndsAsGrantsFileRefused }
{}

/// A run ends with a refused grid exactly where it is to search or to explain, the settings and both tables were read, and the
/// last file is no grid's text, or a grid of another numerology or of another number of blocks.
pub fn ends_as_grid_refused()
    ensures { EndsAsGridRefused }
{}

/// A run ends as a fault of reading exactly where the fetch of a file failed and every file before it was read.
pub fn ends_as_read_fault_of_a_file()
    ensures { EndsAsReadFaultOfAFile }
{}

/// A run ends with a file that is too long exactly where a fetch found one so and every file before it was read.
pub fn ends_as_file_too_long()
    ensures { EndsAsFileTooLong }
{}

/// A run ends with no such handset or watch exactly where every file was read and either it is to search or to explain, and the
/// words name a handset that the cell does not have; or it is to explain, the handset that they name has its watches in the slot,
/// and the number that they give is not below the number of these.
pub fn ends_as_no_such()
    ensures { EndsAsNoSuch }
{}

/// A run ends with a refused slot exactly where every file was read and the common sets of a handset exceed a limit in the
/// slot: of any handset of the cell in `write`, of a reported one in `search`, of the named one in `explain`.
pub fn ends_as_slot_refused()
    ensures { EndsAsSlotRefused }
{}

/// A run ends with refused grants exactly where it is to write, every file was read, no handset's common sets exceed a limit
/// in the slot, and one of the grants was refused.
pub fn ends_as_grants_refused()
    ensures { EndsAsGrantsRefused }
{}

/// A run ends as done exactly where every file was read, the common sets of no handset exceed a limit in the slot (in
/// `search` of no reported one, in `explain` not those of the named one), and in `write` each of the grants was
/// placed, in `search` the cell has a handset that the words name, in `explain` it has the handset that they name and
/// this the watch of the number that they give. `sweep` reads the two tables alone, and nothing else is asked of it.
pub fn ends_as_done()
    ensures { EndsAsDone }
{}
