//! The settings that pass every check.
ghost use Rattle.std.specs.Prelude.{◌≡◌, ◌<◌, ◌↔◌, All, Some, IfErr, IfOk, IfSome, IsNone, IsTrue, bytes_eq, get_or};
ghost use Rattle.std.specs.Prelude.{length, position};
ghost use Rattle.rrc_settings.specs.Legal.{first_fault, IsLegal};
ghost use Rattle.rrc_settings.specs.LegalCell.{IsLegalCell};

use crate::conflicts::cell_conflicts;
use crate::ranges::cell_ranges;
use crate::{Name, RawCell, Same, SettingsFault, is_same};
use std::marker::Model;

/// The settings of a cell that pass every check, seen as the settings themselves.
#[derive(Debug, Drop)]
pub struct Cell {
    raw: RawCell,
}

impl Model for Cell {
    ghost use Rattle.rrc_settings.specs.declared.settings.RawCell.{RawCell};

    ghost Value = { RawCell };

    ghost use Rattle.rrc_settings.specs.Legal.{IsLegal};

    ghost view = { λ c. c.raw };

    ghost invariant = { λ c. IsLegal c.raw };
}

impl Cell {
    /// The cell with these settings, or the first fault that a check of them finds: the ranges of all numbers come
    /// first, and then what may not stand together. Settings that are refused are dropped.
    #[tactic(auto, unfolding(crate::specs::Legal::first_fault))]
    pub fn checked(raw: RawCell) -> Result<Cell, SettingsFault>
        ensures legal { IfOk result (λ cell. IsLegal raw × (cell ≡ raw)) }
        ensures fault { IfErr result (λ fault. first_fault raw ≡ Some fault) }
    {
        cell_ranges(&raw)?;
        cell_conflicts(&raw)?;
        Ok(Cell { raw })
    }

    /// The settings.
    pub fn raw(&self) -> &RawCell
        ensures value { result.now ≡ self.now }
        ensures legal { IsLegal self.now }
        ensures facts { IsLegalCell self.now }
    {
        &self.raw
    }

    /// The place of the handset with this name in the list of handsets, None exactly where no handset has it.
    pub fn handset_of(&self, name: &Name) -> Option<usize>
        ensures first { result ≡ position (λ handset. bytes_eq handset.name name.now) self.now.handsets }
        ensures place { IfSome result (λ at. at < length self.now.handsets) }
        ensures named { (d : _) → IfSome result (λ at. (get_or self.now.handsets at d).name ≡ name.now) }
        ensures absent { IsNone result → All (λ handset. handset.name ≡ name.now → ⊥) self.now.handsets }
    {
        self.raw
            .handsets
            .as_slice()
            .iter()
            .position(|handset| handset.name == *name)
    }
}

impl PartialEq for Cell {
    ghost use Rattle.rrc_settings.specs.contracts.settings.RawCellPartialEq.TheImpl as raw_cell;
    ghost use Rattle.std.specs.Prelude.{◌≡◌, ◌↔◌, IsTrue};
    ghost use Rattle.rrc_settings.specs.Equality.{decides_raw_cell, partial_equivalence_from_decides};

    ghost eq = { raw_cell.ghosts.eq };

    ghost laws = { partial_equivalence_from_decides decides_raw_cell };

    fn eq(&self, other: &Cell) -> bool
        ensures value { result ≡ raw_cell.ghosts.eq self.now other.now }
        ensures same { IsTrue result ↔ (self.now ≡ other.now) }
    {
        is_same(self.raw(), other.raw())
    }
}

impl Eq for Cell {
    ghost use Rattle.rrc_settings.specs.Equality.{decides_raw_cell, equivalence_from_decides};

    ghost laws = { equivalence_from_decides decides_raw_cell };
}

impl Same for Cell {
    ghost use Rattle.rrc_settings.specs.Equality.{decides_raw_cell};

    ghost decides = { decides_raw_cell };
}
