//! What a format lets its fields have.
ghost use Rattle.std.specs.Prelude.{◌≡◌, ◌≤◌};
ghost use Rattle.dci_fields.specs.Payloads.{is_all_ones, is_allowed_fdra, is_allowed, fixes_fdra, is_fixed};

use crate::{FieldName, FieldRow, Format};

/// Whether the format allows a field its value.
pub(crate) fn is_allowed(row: &FieldRow, format: Format, value: u32) -> bool
    requires { row.now.width ≤ 32 }
    ensures { result ≡ is_allowed row.now.name format row.now.width value }
{
    match row.name {
        FieldName::Identifier => value == format.identifier(),
        FieldName::Fdra => is_allowed_fdra(format, row.width, value),
        _ => true,
    }
}

/// Whether the format allows the frequency assignment its value.
fn is_allowed_fdra(format: Format, width: u32, value: u32) -> bool
    requires { width ≤ 32 }
    ensures { result ≡ is_allowed_fdra format width value }
{
    match format {
        Format::F00 => true,
        Format::F10 => !is_all_ones(width, value),
        Format::Order => is_all_ones(width, value),
        Format::F01 => true,
        Format::F11 => true,
    }
}

/// Whether a value is all ones.
fn is_all_ones(width: u32, value: u32) -> bool
    requires { width ≤ 32 }
    ensures { result ≡ is_all_ones width value }
{
    u64::from(value) + 1 == 1 << width
}

/// Whether a field can have only one value.
pub(crate) fn is_fixed(name: FieldName, format: Format) -> bool
    ensures { result ≡ is_fixed name format }
{
    match name {
        FieldName::Identifier => true,
        FieldName::Fdra => fixes_fdra(format),
        _ => false,
    }
}

/// Whether a format fixes its frequency assignment.
fn fixes_fdra(format: Format) -> bool
    ensures { result ≡ fixes_fdra format }
{
    match format {
        Format::F00 => false,
        Format::F10 => false,
        Format::Order => true,
        Format::F01 => false,
        Format::F11 => false,
    }
}
