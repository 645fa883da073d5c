//! What is heard, as C has it.
ghost use Rattle.std.specs.Prelude.{◌≡◌, length, map, replicate};
ghost use Rattle.nrpdcch_c.specs.HeardNumbers.{field_of, heard_of, no_field};
ghost use Rattle.nrpdcch_c.specs.Overlaid.{overlaid};

use crate::numbers::{format_number, name_number};
use dci_codec::Heard;
use dci_fields::{FieldValue, Values};

/// A field with its value.
#[repr(C)]
#[derive(Clone, Copy)]
pub struct NrpdcchField {
    /// The number of its name.
    pub name: u32,
    /// Its value.
    pub value: u32,
}

/// What is heard at a watch.
#[repr(C)]
#[derive(Clone, Copy)]
pub struct NrpdcchHeard {
    /// The number of the watch.
    pub watch: u32,
    /// The number of the format.
    pub format: u32,
    /// How many fields there are.
    pub count: u32,
    /// The fields.
    pub fields: [NrpdcchField; 32],
}

/// No field.
const NO_FIELD: NrpdcchField = NrpdcchField { name: 0, value: 0 };

/// A field as C has it.
fn field_of(value: &FieldValue) -> NrpdcchField
    ensures { result ≡ field_of value.now }
{
    NrpdcchField {
        name: name_number(value.name),
        value: value.value,
    }
}

/// The fields as C has them.
#[tactic(auto, using(crate::proofs::Overlays::overlaid_whole))]
fn fields_of(values: &Values) -> [NrpdcchField; 32]
    ensures { result ≡ overlaid (map field_of values.now) (replicate 32 no_field) }
{
    let mut fields = [NO_FIELD; 32];
    for (index, value) in values.entries().iter().enumerate() {
        fields[index] = field_of(value);
    }
    fields
}

/// What is heard as C has it.
pub(crate) fn heard_of(heard: &Heard) -> NrpdcchHeard
    ensures { result ≡ heard_of heard.now }
{
    NrpdcchHeard {
        watch: heard.watch,
        format: format_number(heard.format),
        count: heard.values.entries().len() as u32,
        fields: fields_of(&heard.values),
    }
}
