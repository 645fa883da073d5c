//! `==` of formats, names, rows and values, which holds exactly of equal values.
ghost use Rattle.dci_fields.specs.Equality.{decides_format, decides_field_name, decides_given, decides_field_row};
ghost use Rattle.dci_fields.specs.Equality.{decides_field_value, decides_rows, decides_values};

use crate::{FieldList, FieldName, FieldRow, FieldValue, Format, Given, Values};
use rrc_settings::Same;

impl Same for Format {
    ghost decides = { decides_format };
}

impl Same for FieldName {
    ghost decides = { decides_field_name };
}

impl Same for Given {
    ghost decides = { decides_given };
}

impl Same for FieldRow {
    ghost decides = { decides_field_row };
}

impl Same for FieldValue {
    ghost decides = { decides_field_value };
}

impl Same for FieldList {
    ghost decides = { decides_rows };
}

impl Same for Values {
    ghost decides = { decides_values };
}
