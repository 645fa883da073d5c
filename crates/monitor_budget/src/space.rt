//! A search space set of a handset, with all that its search needs.
ghost use Rattle.std.specs.Prelude.{◌≡◌, ◌^◌, ◌<◌, ◌≤◌, All, IsSome, Some, length, true};
ghost use Rattle.rrc_settings.specs.BitSets.{has_bit};
ghost use Rattle.rrc_settings.specs.HandsetsOfCell.{coreset_numbered, handset_at};
ghost use Rattle.coreset_map.specs.ControlResources.{cce_count};
ghost use Rattle.rrc_settings.specs.Legal.{IsLegal};
ghost use Rattle.rrc_settings.specs.LegalCell.{IsLegalHandset, IsLegalSearchSet};
ghost use Rattle.monitor_budget.specs.Scrambling.{scrambling_start};
ghost use Rattle.monitor_budget.specs.SetCandidates.{IsPlaced, set_candidates, sizes_in, symbol_candidates};
ghost use Rattle.monitor_budget.specs.Spaces.{space_of, IsSpace};

use crate::Candidate;
use crate::candidates::{push_set, push_symbol};
use crate::scrambling::scrambling_start;
use crate::sizes::sizes_in;
use arrayvec::ArrayVec;
use coreset_map::Map;
use dci_fields::Sizes;
use rrc_settings::{Cell, Coreset, Handset, SearchSet};

/// A search space set of a handset, with all that its search needs.
#[derive(Debug, Drop)]
pub struct Space {
    /// The set.
    pub set: SearchSet,
    /// Its CORESET, with the REGs of each CCE.
    pub resources: Map,
    /// The identity of its CORESET's reference signal, where it has one.
    pub dmrs_id: Option<u16>,
    /// The number of the cell.
    pub cell: u16,
    /// The identity of the handset.
    pub rnti: u16,
}

impl Space {
    /// A set of a handset with all that its search needs, found once.
    pub fn of(cell: &Cell, handset: &Handset, set: &SearchSet) -> Space
        requires handset { IsLegalHandset cell.now handset.now }
        requires set { IsLegalSearchSet handset.now set.now }
        ensures space { result ≡ space_of cell.now handset.now set.now }
        ensures legal { IsSpace result }
    {
        let number = cell.raw().cell;
        let coreset = coreset_numbered(handset, set.coreset);
        Space {
            set: *set,
            resources: Map::in_part(number, handset.downlink.start, &coreset),
            dmrs_id: coreset.dmrs_id,
            cell: number,
            rnti: handset.rnti,
        }
    }

    /// The candidates of the set, in search order. `sizes` are the handset's.
    pub fn candidates(&self, sizes: &Sizes) -> ArrayVec<Candidate, 1120>
        requires legal { IsSpace self.now }
        ensures items { result.items ≡ set_candidates (cce_count self.now.resources) (sizes_in sizes.now self.now.set.kind)
            self.now.set }
        ensures few { length result.items ≤ 1120 }
        ensures cces { cce_count self.now.resources ≤ 192 }
        ensures placed { All (IsPlaced (cce_count self.now.resources) self.now.set) result.items }
    {
        let cces = self.resources.cce_count();
        let sizes = sizes_in(sizes, self.set.kind);
        let mut out = ArrayVec::new();
        push_set(&mut out, cces, sizes.as_slice(), &self.set);
        out
    }

    /// Those of the set's candidates that begin at a symbol, one of the set's. `cces` is how many CCEs its CORESET has, and
    /// `sizes` are those that the set monitors.
    pub(crate) fn candidates_at(
        &self,
        cces: u16,
        sizes: &[u16],
        symbol: u8,
    ) -> ArrayVec<Candidate, 80>
        requires legal { IsSpace self.now }
        requires cces { cces ≡ cce_count self.now.resources }
        requires sizes { length sizes.now ≤ 2 }
        requires symbol { symbol < 14 }
        requires begins { has_bit self.now.set.symbols symbol ≡ true }
        ensures items { result.items ≡ symbol_candidates cces sizes.now self.now.set symbol }
        ensures few { length result.items ≤ 80 }
        ensures placed { All (IsPlaced cces self.now.set) result.items }
    {
        let mut out = ArrayVec::new();
        push_symbol(&mut out, cces, sizes, &self.set, symbol);
        out
    }

    /// What the scrambling of the candidates begins with.
    pub fn scramble(&self) -> u32
        ensures value { result ≡ scrambling_start self.now.set.kind self.now.cell self.now.rnti self.now.dmrs_id }
        ensures below { result < 2 ^ 31 }
    {
        scrambling_start(self.set.kind, self.cell, self.rnti, self.dmrs_id)
    }
}

/// The handset at a place in the list of a cell.
pub fn handset_in(cell: &Cell, handset: usize) -> &Handset
    requires { handset < length cell.now.handsets }
    ensures handset { result.now ≡ handset_at cell.now handset }
    ensures legal { IsLegal cell.now }
    ensures facts { IsLegalHandset cell.now result.now }
{
    &cell.raw().handsets.as_slice()[handset]
}

/// The CORESET of a handset that has a number.
fn coreset_numbered(handset: &Handset, number: u16) -> Coreset
    requires { IsSome (coreset_numbered number handset.now.coresets.items) }
    ensures { coreset_numbered number handset.now.coresets.items ≡ Some result }
{
    for coreset in handset.coresets.as_slice() {
        if coreset.number == number {
            return *coreset;
        }
    }
    unreachable!()
}
