//! Why a call doesn't do what it says.
ghost use Rattle.std.specs.Prelude.{◌≡◌};
ghost use Rattle.nrpdcch_c.specs.Stops.{answer_number, number_told, status_of};

use crate::status::Status;
use dci_codec::Silence;
use dci_fields::FieldFault;
use rrc_settings::SettingsFault;
use table_files::TableFault;

/// Why a call doesn't do what it says, with what is told of it.
#[derive(Debug, Drop)]
pub enum Stop {
    /// A number is out of its range.
    Argument,
    /// There was no memory.
    NoMemory,
    /// Nothing is open behind the handle.
    Closed,
    /// The handle is open already.
    Open,
    /// The settings are refused.
    Settings(SettingsFault),
    /// The reliability table is refused.
    Reliability(TableFault),
    /// The input order is refused.
    InputOrder(TableFault),
    /// The common sets exceed the budget of the slot.
    Over,
    /// The cell has no such handset.
    NoHandset,
    /// The plan has no such watch.
    NoWatch,
    /// No format has this number.
    NoFormat,
    /// The watch doesn't carry the format.
    NotCarried,
    /// The field values make no payload.
    Field(FieldFault),
    /// Nothing is heard at the watch.
    Silent(Silence),
    /// The grid has another length.
    GridLength,
    /// The byte at this place of the grid is no point.
    GridByte { at: usize },
    /// A buffer is too small: it needs so many elements.
    Small { needed: usize },
    /// The text is that of no grid: so many first bytes are those of some grid's text.
    GridText { at: usize },
}

impl Stop {
    /// The status that says so.
    fn status(&self) -> Status
        ensures { result ≡ status_of self.now }
    {
        match self {
            Stop::Argument => Status::Argument,
            Stop::NoMemory => Status::NoMemory,
            Stop::Closed => Status::Closed,
            Stop::Open => Status::Open,
            Stop::Settings(_) => Status::Settings,
            Stop::Reliability(_) | Stop::InputOrder(_) => Status::Table,
            Stop::Over => Status::Over,
            Stop::NoHandset => Status::NoHandset,
            Stop::NoWatch => Status::NoWatch,
            Stop::NoFormat => Status::NoFormat,
            Stop::NotCarried => Status::NotCarried,
            Stop::Field(_) => Status::Field,
            Stop::Silent(_) => Status::Silent,
            Stop::GridLength => Status::GridLength,
            Stop::GridByte { at: _ } => Status::GridByte,
            Stop::Small { needed: _ } => Status::Small,
            Stop::GridText { at: _ } => Status::GridText,
        }
    }

    /// The number that is told: how many elements a buffer needs, or the place of a byte.
    pub fn number_told(&self) -> usize
        ensures { result ≡ number_told self.now }
    {
        match self {
            Stop::GridByte { at } | Stop::GridText { at } => *at,
            Stop::Small { needed } => *needed,
            _ => 0,
        }
    }
}

/// The number of what a call answers.
pub fn answer_number<T>(answer: &Result<T, Stop>) -> u32
    ensures { result ≡ answer_number answer.now }
{
    match answer {
        Ok(_) => Status::Done.number(),
        Err(stop) => stop.status().number(),
    }
}
