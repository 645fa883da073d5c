//! The values of fields.
ghost use Rattle.std.specs.Prelude.{◌≡◌, ◌<◌, ◌≤◌, [], ◌∷◌, ◌++◌, length};

use crate::FieldName;
use arrayvec::ArrayVec;
use std::alloc::AllocError;
use std::marker::Model;

/// A field with its value.
#[derive(Clone, Copy, Debug, Default, PartialEq, Eq)]
pub struct FieldValue {
    /// Which field it is.
    pub name: FieldName,
    /// What its bits spell.
    pub value: u32,
}

/// At most 32 fields with their values, seen as the list of them.
#[derive(Debug, Drop)]
pub struct Values {
    entries: ArrayVec<FieldValue, 32>,
}

impl Model for Values {
    ghost use Rattle.std.specs.Prelude.{List};
    ghost use Rattle.dci_fields.specs.declared.values.FieldValue.{FieldValue};

    ghost Value = { List FieldValue };

    ghost view = { λ v. v.entries.items };
}

impl Values {
    /// No values.
    pub(crate) fn new() -> Values
        ensures { result ≡ [] }
    {
        Values {
            entries: ArrayVec::new(),
        }
    }

    /// Appends a value.
    pub(crate) fn push(&mut self, value: FieldValue)
        requires { length self.old < 32 }
        ensures { self.new ≡ self.old ++ value ∷ [] }
    {
        self.entries.push(value);
    }

    /// The values, in order.
    pub fn entries(&self) -> &[FieldValue]
        ensures value { result.now ≡ self.now }
        ensures few { length self.now ≤ 32 }
    {
        self.entries.as_slice()
    }
}

impl Default for Values {
    ghost is_default = { λ v. v ≡ [] };

    fn default() -> Values {
        Values::new()
    }
}

impl Clone for Values {
    ghost is_clone = { λ a b. a ≡ b };

    ghost is_infallible = { λ _. Unit {0} };

    fn clone(&self) -> Result<Values, AllocError> {
        let mut values = Values::new();
        for value in self.entries() {
            values.push(*value);
        }
        Ok(values)
    }
}

impl PartialEq for Values {
    ghost use Rattle.rrc_settings.specs.Equality.{partial_equivalence_from_decides};
    ghost use Rattle.dci_fields.specs.Equality.{same_values, decides_values};

    ghost eq = { same_values };

    ghost laws = { partial_equivalence_from_decides decides_values };

    fn eq(&self, other: &Values) -> bool {
        self.entries() == other.entries()
    }
}

impl Eq for Values {
    ghost use Rattle.rrc_settings.specs.Equality.{equivalence_from_decides};
    ghost use Rattle.dci_fields.specs.Equality.{decides_values};

    ghost laws = { equivalence_from_decides decides_values };
}
