//! The formats of downlink control information.
ghost use Rattle.std.specs.Prelude.{◌≡◌, ◌↔◌, Some, bytes_eq};
ghost use Rattle.dci_fields.specs.declared.formats.Format.{Format};
ghost use Rattle.dci_fields.specs.Formats.{format_word, format_named, identifier_of};

/// A format of downlink control information (3GPP TS 38.212, 7.3.1).
#[derive(Clone, Copy, Debug, Default, PartialEq, Eq)]
pub enum Format {
    /// Format 0_0: an uplink grant of fallback.
    #[default]
    F00,
    /// Format 1_0: a downlink assignment of fallback.
    F10,
    /// Format 1_0 as a PDCCH order: a handset is told to send a preamble.
    Order,
    /// Format 0_1: an uplink grant.
    F01,
    /// Format 1_1: a downlink assignment.
    F11,
}

/// Which bandwidth part decides the width of the frequency assignment of a fallback format (3GPP TS 38.212, 7.3.1.0).
#[derive(Clone, Copy, Debug, Default, PartialEq, Eq)]
pub enum Widths {
    /// The initial ones of the cell, or CORESET 0.
    #[default]
    Common,
    /// The handset's own.
    Own,
}

/// All formats.
const FORMATS: [Format; 5] = [
    Format::F00,
    Format::F10,
    Format::Order,
    Format::F01,
    Format::F11,
];

impl Format {
    /// The word that names the format in texts.
    pub fn word(&self) -> &[u8]
        ensures { result.now ≡ format_word self.now }
    {
        match self {
            Format::F00 => b"0_0",
            Format::F10 => b"1_0",
            Format::Order => b"order",
            Format::F01 => b"0_1",
            Format::F11 => b"1_1",
        }
    }

    /// The value of the identifier: 0 for an uplink format, 1 for a downlink format.
    pub fn identifier(&self) -> u32
        ensures { result ≡ identifier_of self.now }
    {
        match self {
            Format::F00 => 0,
            Format::F10 => 1,
            Format::Order => 1,
            Format::F01 => 0,
            Format::F11 => 1,
        }
    }
}

/// The format with this word, None exactly where no format has it.
pub fn format_of(word: &[u8]) -> Option<Format>
    ensures named { result ≡ format_named word.now }
    ensures exactly { (format : Format) → (result ≡ Some format) ↔ (format_word format ≡ word.now) }
{
    FORMATS
        .iter()
        .find(
            |format|
                ensures { result ≡ bytes_eq (format_word format.now.now) word.entry.now }
            { format.word() == word },
        )
        .copied()
}
