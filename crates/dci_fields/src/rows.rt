//! Fields with their widths, and lists of them.
ghost use Rattle.std.specs.Prelude.{◌≡◌};
ghost use Rattle.dci_fields.specs.FieldLists.{IsFieldList};

use crate::FieldName;
use arrayvec::ArrayVec;
use std::alloc::AllocError;
use std::marker::Model;

/// A field of a format and how many bits it has.
#[derive(Clone, Copy, Debug, Default, PartialEq, Eq)]
pub struct FieldRow {
    /// Which field it is.
    pub name: FieldName,
    /// How many bits it has.
    pub width: u32,
}

/// The fields of a format in order, seen as the list of them: at most 32 of different names and at most 32 bits each,
/// the identifier in one bit first, and a frequency assignment of one bit and more.
#[derive(Debug, Drop)]
pub struct FieldList {
    rows: ArrayVec<FieldRow, 32>,
}

impl Model for FieldList {
    ghost use Rattle.std.specs.Prelude.{List};
    ghost use Rattle.dci_fields.specs.declared.rows.FieldRow.{FieldRow};

    ghost Value = { List FieldRow };

    ghost use Rattle.dci_fields.specs.FieldLists.{IsFieldList};

    ghost view = { λ l. l.rows.items };

    ghost invariant = { λ l. IsFieldList l.rows.items };
}

impl FieldList {
    /// The list of these rows.
    pub(crate) fn of(rows: &[FieldRow]) -> FieldList
        requires { IsFieldList rows.now }
        ensures { result ≡ rows.now }
    {
        let mut list = ArrayVec::new();
        for row in rows {
            list.push(*row);
        }
        FieldList { rows: list }
    }

    /// The rows, in order.
    pub fn rows(&self) -> &[FieldRow]
        ensures value { result.now ≡ self.now }
        ensures list { IsFieldList self.now }
    {
        self.rows.as_slice()
    }
}

impl Clone for FieldList {
    ghost is_clone = { λ a b. a ≡ b };

    ghost is_infallible = { λ _. Unit {0} };

    fn clone(&self) -> Result<FieldList, AllocError> {
        Ok(FieldList::of(self.rows()))
    }
}

impl PartialEq for FieldList {
    ghost use Rattle.rrc_settings.specs.Equality.{partial_equivalence_from_decides};
    ghost use Rattle.dci_fields.specs.Equality.{same_rows, decides_rows};

    ghost eq = { same_rows };

    ghost laws = { partial_equivalence_from_decides decides_rows };

    fn eq(&self, other: &FieldList) -> bool {
        self.rows() == other.rows()
    }
}

impl Eq for FieldList {
    ghost use Rattle.rrc_settings.specs.Equality.{equivalence_from_decides};
    ghost use Rattle.dci_fields.specs.Equality.{decides_rows};

    ghost laws = { equivalence_from_decides decides_rows };
}
