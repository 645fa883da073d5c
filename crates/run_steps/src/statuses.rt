//! How a run ends.
ghost use Rattle.std.specs.Prelude.{◌≡◌};
ghost use Rattle.run_steps.specs.Codes.{code_of};

/// How a run ended.
#[derive(Clone, Copy, Debug, PartialEq, Eq)]
pub enum Status {
    Done,
    Usage,
    GrantsRefused,
    SettingsRefused,
    TableRefused,
    GrantsFileRefused,
    GridRefused,
    ReadFault,
    WriteFault,
    NoMemory,
    FileTooLong,
    NoSuch,
    SlotRefused,
}

impl Status {
    /// The exit status of the program, 0 to 13.
    pub fn code(&self) -> u8
        ensures { result ≡ code_of self.now }
    {
        match self {
            Status::Done => 0,
            Status::Usage => 2,
            Status::GrantsRefused => 3,
            Status::SettingsRefused => 4,
            Status::TableRefused => 5,
            Status::GrantsFileRefused => 6,
            Status::GridRefused => 7,
            Status::ReadFault => 8,
            Status::WriteFault => 9,
            Status::NoMemory => 10,
            Status::FileTooLong => 11,
            Status::NoSuch => 12,
            Status::SlotRefused => 13,
        }
    }
}
