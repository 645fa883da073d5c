//! What a call answers.
ghost use Rattle.std.specs.Prelude.{◌≡◌};
ghost use Rattle.nrpdcch_c.specs.Statuses.{number_of};

/// What a call answers: that it did what it says, or why not.
#[derive(Clone, Copy, Debug, PartialEq, Eq)]
pub enum Status {
    /// It did what it says.
    Done,
    /// A number is out of its range.
    Argument,
    /// There was no memory.
    NoMemory,
    /// Nothing is open behind the handle.
    Closed,
    /// The handle is open already.
    Open,
    /// The settings are refused.
    Settings,
    /// A table is refused.
    Table,
    /// The common sets exceed the budget of the slot.
    Over,
    /// The cell has no such handset.
    NoHandset,
    /// The plan has no such watch.
    NoWatch,
    /// No format has this number.
    NoFormat,
    /// The watch doesn't carry the format.
    NotCarried,
    /// The field values make no payload.
    Field,
    /// Nothing is heard at the watch.
    Silent,
    /// The grid has another length.
    GridLength,
    /// A byte of the grid is no point.
    GridByte,
    /// A buffer is too small.
    Small,
    /// The text is that of no grid.
    GridText,
}

impl Status {
    /// The number that stands for it in C.
    pub fn number(self) -> u32
        ensures { result ≡ number_of self }
    {
        match self {
            Status::Done => 0,
            Status::Argument => 1,
            Status::NoMemory => 2,
            Status::Closed => 3,
            Status::Open => 4,
            Status::Settings => 5,
            Status::Table => 6,
            Status::Over => 7,
            Status::NoHandset => 8,
            Status::NoWatch => 9,
            Status::NoFormat => 10,
            Status::NotCarried => 11,
            Status::Field => 12,
            Status::Silent => 13,
            Status::GridLength => 14,
            Status::GridByte => 15,
            Status::Small => 16,
            Status::GridText => 17,
        }
    }
}
