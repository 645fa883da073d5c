//! What every run promises: laws over what a run leaves, as the contracts of functions with nothing to do.
ghost use Rattle.run_steps.specs.Promises.{EndsAsReadFault, EndsAsWriteFault, RefusesSilently, NamesTheFailedFile};
ghost use Rattle.run_steps.specs.Promises.{NamesTheLongFile};

/// A fault of the shelf never ends as another refusal, and never as a job that was done.
pub fn ends_as_read_fault()
    ensures { EndsAsReadFault }
{}

/// A fault of a sink never ends as anything else.
pub fn ends_as_write_fault()
    ensures { EndsAsWriteFault }
{}

/// Nothing stands on the output with a refusal.
pub fn refuses_silently()
    ensures { RefusesSilently }
{}

/// The name in the line on a fault of reading is that of the file whose fetch failed.
pub fn names_the_failed_file()
    ensures { NamesTheFailedFile }
{}

/// The name in the line on a file that is too long is that of the file that was.
pub fn names_the_long_file()
    ensures { NamesTheLongFile }
{}
