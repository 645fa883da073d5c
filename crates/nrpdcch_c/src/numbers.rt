//! The numbers that stand for keys, formats, kinds and names in C.
ghost use Rattle.std.specs.Prelude.{◌≡◌, slice_get};
ghost use Rattle.nrpdcch_c.specs.declared.numbers.TheConstants.{FORMATS, NAMES};
ghost use Rattle.nrpdcch_c.specs.FormatNumbers.{format_number, kind_number};
ghost use Rattle.nrpdcch_c.specs.KeyNumbers.{key_number};
ghost use Rattle.nrpdcch_c.specs.NameNumbers.{name_number};

use dci_fields::{FieldName, Format};
use rrc_settings::{Key, SetKind};

/// The formats by their numbers.
pub(crate) const FORMATS: [Format; 5] = [
    Format::F00,
    Format::F10,
    Format::Order,
    Format::F01,
    Format::F11,
];

/// The names of fields by their numbers.
pub(crate) const NAMES: [FieldName; 38] = [
    FieldName::Identifier,
    FieldName::Fdra,
    FieldName::Tdra,
    FieldName::Hopping,
    FieldName::Vrb,
    FieldName::Mcs,
    FieldName::Ndi,
    FieldName::Rv,
    FieldName::Harq,
    FieldName::Dai,
    FieldName::Tpc,
    FieldName::Pucch,
    FieldName::Timing,
    FieldName::Preamble,
    FieldName::Supplementary,
    FieldName::Ssb,
    FieldName::Mask,
    FieldName::Reserved,
    FieldName::Bwp,
    FieldName::Bundling,
    FieldName::RateMatch,
    FieldName::ZpCsiRs,
    FieldName::Mcs2,
    FieldName::Ndi2,
    FieldName::Rv2,
    FieldName::Dai2,
    FieldName::Sri,
    FieldName::Precoding,
    FieldName::Ports,
    FieldName::Tci,
    FieldName::Srs,
    FieldName::Csi,
    FieldName::Cbgti,
    FieldName::Flush,
    FieldName::Ptrs,
    FieldName::Beta,
    FieldName::Dmrs,
    FieldName::Ulsch,
];

/// The entry of a number, where it has one.
fn entry_of<T: Copy>(entries: &[T], number: u32) -> Option<T>
    ensures { result ≡ slice_get entries.now number }
{
    entries.get(number as usize).copied()
}

/// The format of a number, where it has one.
pub(crate) fn format_of(number: u32) -> Option<Format>
    ensures { result ≡ slice_get FORMATS number }
{
    entry_of(&FORMATS, number)
}

/// The name of a number, where it has one.
pub(crate) fn name_of(number: u32) -> Option<FieldName>
    ensures { result ≡ slice_get NAMES number }
{
    entry_of(&NAMES, number)
}

/// The number of a format.
pub(crate) fn format_number(format: Format) -> u32
    ensures { result ≡ format_number format }
{
    match format {
        Format::F00 => 0,
        Format::F10 => 1,
        Format::Order => 2,
        Format::F01 => 3,
        Format::F11 => 4,
    }
}

/// The number of a kind of set.
pub(crate) fn kind_number(kind: SetKind) -> u32
    ensures { result ≡ kind_number kind }
{
    match kind {
        SetKind::Common => 0,
        SetKind::Fallback => 1,
        SetKind::Specific => 2,
    }
}

/// The number of a field's name.
pub(crate) fn name_number(name: FieldName) -> u32
    ensures { result ≡ name_number name }
{
    match name {
        FieldName::Identifier => 0,
        FieldName::Fdra => 1,
        FieldName::Tdra => 2,
        FieldName::Hopping => 3,
        FieldName::Vrb => 4,
        FieldName::Mcs => 5,
        FieldName::Ndi => 6,
        FieldName::Rv => 7,
        FieldName::Harq => 8,
        FieldName::Dai => 9,
        FieldName::Tpc => 10,
        FieldName::Pucch => 11,
        FieldName::Timing => 12,
        FieldName::Preamble => 13,
        FieldName::Supplementary => 14,
        FieldName::Ssb => 15,
        FieldName::Mask => 16,
        FieldName::Reserved => 17,
        FieldName::Bwp => 18,
        FieldName::Bundling => 19,
        FieldName::RateMatch => 20,
        FieldName::ZpCsiRs => 21,
        FieldName::Mcs2 => 22,
        FieldName::Ndi2 => 23,
        FieldName::Rv2 => 24,
        FieldName::Dai2 => 25,
        FieldName::Sri => 26,
        FieldName::Precoding => 27,
        FieldName::Ports => 28,
        FieldName::Tci => 29,
        FieldName::Srs => 30,
        FieldName::Csi => 31,
        FieldName::Cbgti => 32,
        FieldName::Flush => 33,
        FieldName::Ptrs => 34,
        FieldName::Beta => 35,
        FieldName::Dmrs => 36,
        FieldName::Ulsch => 37,
    }
}

/// The number of a key.
pub(crate) fn key_number(key: Key) -> u32
    ensures { result ≡ key_number key }
{
    match key {
        Key::Version => 0,
        Key::Cell => 1,
        Key::Mu => 2,
        Key::Blocks => 3,
        Key::InitialDownlink => 4,
        Key::InitialUplink => 5,
        Key::Coreset0 => 6,
        Key::Handsets => 7,
        Key::Name => 8,
        Key::Rnti => 9,
        Key::Downlink => 10,
        Key::Uplink => 11,
        Key::Codebook => 12,
        Key::Coresets => 13,
        Key::Sets => 14,
        Key::UplinkFields => 15,
        Key::DownlinkFields => 16,
        Key::Start => 17,
        Key::Size => 18,
        Key::Number => 19,
        Key::Groups => 20,
        Key::Duration => 21,
        Key::Interleave => 22,
        Key::DmrsId => 23,
        Key::Bundle => 24,
        Key::Rows => 25,
        Key::Shift => 26,
        Key::Coreset => 27,
        Key::Kind => 28,
        Key::Period => 29,
        Key::Offset => 30,
        Key::Symbols => 31,
        Key::Candidates => 32,
        Key::Base => 33,
        Key::Bwps => 34,
        Key::Allocation => 35,
        Key::RbgConfig => 36,
        Key::Tdra => 37,
        Key::Hopping => 38,
        Key::SecondDai => 39,
        Key::Transform => 40,
        Key::DmrsType => 41,
        Key::DmrsLength => 42,
        Key::SrsResources => 43,
        Key::CsiRequest => 44,
        Key::Cbg => 45,
        Key::Ptrs => 46,
        Key::Beta => 47,
        Key::Interleaved => 48,
        Key::Bundling => 49,
        Key::RateMatch => 50,
        Key::ZpSets => 51,
        Key::Codewords => 52,
        Key::Timing => 53,
        Key::Tci => 54,
        Key::Flush => 55,
    }
}
