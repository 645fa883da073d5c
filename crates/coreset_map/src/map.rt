//! The REGs of a control resource set (3GPP TS 38.211, 7.3.2.2).
ghost use Rattle.std.specs.Prelude.{◌≡◌, ◌≢◌, ℕ, ◌+◌, ◌-◌, ◌*◌, ◌%◌, ◌<◌, ◌≤◌, length, option_map, slice_index};
ghost use Rattle.coreset_map.specs.Candidates.{candidate_regs};
ghost use Rattle.coreset_map.specs.ControlResources.{blocks_of, bundle_size, cce_count, cce_regs, reg_of, AreBelow, AreResources};
ghost use Rattle.coreset_map.specs.Numbers.{number_at, placed_reg};
ghost use Rattle.coreset_map.specs.RegOrder.{AreRegs, AreWithin};
ghost use Rattle.rrc_settings.specs.HandsetsOfCell.{handset_at};
ghost use Rattle.coreset_map.specs.ResourcesOfCell.{interleaver_in, resources_in, resources_of};
ghost use Rattle.rrc_settings.specs.ControlGroups.{groups_of};

use crate::Reg;
use crate::interleaver::{Interleaver, bundle_at, bundle_size};
use arrayvec::ArrayVec;
use rrc_settings::{Cell, Coreset, Interleave, group_block, has_bit};
use std::marker::Model;

/// A control resource set of a cell, and where each of its CCEs stands.
#[derive(Debug, Drop)]
pub struct Map {
    start: u16,
    groups: ArrayVec<u16, 64>,
    duration: u16,
    interleaver: Option<Interleaver>,
}

impl Model for Map {
    ghost use Rattle.coreset_map.specs.ControlResources.{Resources, AreResources};
    ghost use Rattle.coreset_map.specs.View.{resources_in_map};

    ghost Value = { Resources };

    ghost view = { resources_in_map };

    ghost invariant = { λ m. AreResources (resources_in_map m) };
}

impl Map {
    /// The set of the CORESET at a place in the list of the handset at a place in the list of the cell.
    pub fn of(cell: &Cell, handset: usize, coreset: usize) -> Map
        requires handset { handset < length cell.now.handsets }
        requires coreset { coreset < length (handset_at cell.now handset).coresets.items }
        ensures set { result ≡ resources_of cell.now handset coreset }
        ensures blocks { AreBelow cell.now.blocks result }
    {
        let raw = cell.raw();
        let handset = &raw.handsets.as_slice()[handset];
        Map::in_part(raw.cell, handset.downlink.start, &handset.coresets[coreset])
    }

    /// The set of a CORESET, in the cell of a number and a bandwidth part from block `start` on.
    pub fn in_part(cell: u16, start: u16, coreset: &Coreset) -> Map
        requires { AreResources (resources_in cell start coreset.now) }
        ensures { result ≡ resources_in cell start coreset.now }
    {
        Map {
            start,
            groups: groups_of(coreset.groups),
            duration: coreset.duration,
            interleaver: interleaver_of(cell, coreset.interleave),
        }
    }

    /// How many CCEs the set has.
    pub fn cce_count(&self) -> u16
        ensures value { result ≡ cce_count self.now }
        ensures few { result ≤ 192 }
        ensures resources { AreResources self.now }
    {
        self.groups.len() as u16 * self.duration
    }

    /// The REGs of a CCE, below the number of CCEs: bundle by bundle, and in a bundle by their numbers.
    pub fn regs_of(&self, cce: u16) -> [Reg; 6]
        requires { cce < cce_count self.now }
        ensures { result ≡ cce_regs self.now cce }
    {
        let _count = self.cce_count();
        let first = 6 * cce;
        [
            self.reg_at(first),
            self.reg_at(first + 1),
            self.reg_at(first + 2),
            self.reg_at(first + 3),
            self.reg_at(first + 4),
            self.reg_at(first + 5),
        ]
    }

    /// The REGs of the `level` CCEs from CCE `start` on, by symbol and then by block.
    ///
    /// `level` is at most 16, and `start + level` at most the number of CCEs.
    pub fn regs_of_candidate(&self, start: u16, level: u8) -> ArrayVec<Reg, 96>
        requires level { level ≤ 16 }
        requires cces { start + level ≤ cce_count self.now }
        ensures regs { result.items ≡ candidate_regs self.now start level }
        ensures length { length result.items ≡ 6 * level }
        ensures order { AreRegs result.items }
        ensures symbols { AreWithin self.now.duration 275 result.items }
        ensures blocks { (blocks : ℕ) → AreBelow blocks self.now → AreWithin self.now.duration blocks result.items }
    {
        let _count = self.cce_count();
        let mut regs = ArrayVec::new();
        let mut number = 0;
        for place in 6 * start..6 * (start + u16::from(level)) {
            number = self.next_number(place, number);
            regs.push(self.reg(number));
        }
        regs.sort_unstable();
        regs
    }

    /// The REG at a place of the CCEs, six places for each.
    fn reg_at(&self, place: u16) -> Reg
        requires { place < 6 * cce_count self.now }
        ensures { result ≡ placed_reg (6 * cce_count self.now) self.now place }
    {
        let _count = self.cce_count();
        self.reg(self.number_at(place))
    }

    /// The REG of a number.
    fn reg(&self, number: u16) -> Reg
        requires { number < 6 * cce_count self.now }
        ensures { result ≡ reg_of self.now number }
    {
        let _count = self.cce_count();
        Reg {
            symbol: (number % self.duration) as u8,
            block: self.block_at(number / self.duration),
        }
    }

    /// The block of a rank among the set's blocks.
    fn block_at(&self, rank: u16) -> u16
        requires { rank < 6 * length self.now.groups }
        ensures { result ≡ slice_index (blocks_of self.now) rank }
    {
        let group = u32::from(self.groups[usize::from(rank / 6)]);
        (group_block(self.start, group) + u32::from(rank % 6)) as u16
    }

    /// The number of the REG at a place of the CCEs, where `before` is that of the place before, if both are in one bundle.
    fn next_number(&self, place: u16, before: u16) -> u16
        requires place { place < 6 * cce_count self.now }
        requires before { place % bundle_size self.now.interleaver ≢ 0
            → before ≡ number_at (6 * cce_count self.now) self.now (place - 1) }
        ensures value { result ≡ number_at (6 * cce_count self.now) self.now place }
        ensures below { result < 6 * cce_count self.now }
    {
        let _count = self.cce_count();
        let rest = place % bundle_size(self.interleaver);
        if rest == 0 {
            return self.number_at(place);
        }
        before + 1
    }

    /// The number of the REG at a place of the CCEs, six places for each.
    fn number_at(&self, place: u16) -> u16
        requires { place < 6 * cce_count self.now }
        ensures value { result ≡ number_at (6 * cce_count self.now) self.now place }
        ensures below { result < 6 * cce_count self.now }
    {
        let count = 6 * self.cce_count();
        let size = bundle_size(self.interleaver);
        bundle_at(self.interleaver, place / size, count) * size + place % size
    }
}

/// The groups of six blocks whose bit is one, rising.
fn groups_of(groups: u64) -> ArrayVec<u16, 64>
    ensures { result.items ≡ groups_of groups }
{
    let mut rising = ArrayVec::new();
    for group in 0..64u16 {
        if has_bit(groups, u32::from(group)) {
            rising.push(group);
        }
    }
    rising
}

/// The interleaver of the settings, where there is one: its shift is the cell's number where they give none.
fn interleaver_of(cell: u16, interleave: Option<Interleave>) -> Option<Interleaver>
    ensures { result ≡ option_map (interleaver_in cell) interleave }
{
    match interleave {
        Some(interleave) => Some(Interleaver {
            bundle: interleave.bundle,
            rows: interleave.rows,
            shift: interleave.shift.unwrap_or(cell),
        }),
        None => None,
    }
}
