//! Which sets a handset looks at in a slot (3GPP TS 38.213, 10.1).
ghost use Rattle.std.specs.Prelude.{◌≡◌, ◌+◌, ◌*◌, ◌^◌, ◌<◌, ◌≤◌, ◌++◌, true, All, IfOk, length};
ghost use Rattle.rrc_settings.specs.HandsetsOfCell.{handset_at};
ghost use Rattle.rrc_settings.specs.LegalCell.{IsLegalHandset};
ghost use Rattle.monitor_budget.specs.Tally.{Tallies};
ghost use Rattle.monitor_budget.specs.Allotting.{allotment_of, allotted, keep_limits, longest_front};

use crate::calendar::sets_in_slot;
use crate::counting::{keep_together, keeps_with};
use crate::exceeding::common_over;
use crate::space::handset_in;
use crate::tally::Tally;
use arrayvec::ArrayVec;
use dci_fields::Sizes;
use rrc_settings::{Cell, Handset};

/// The common sets of a slot exceed a limit.
#[derive(Clone, Copy, Debug, Default, PartialEq, Eq)]
pub struct CommonOver {
    /// How many candidates they have.
    pub candidates: u16,
    /// How many CCEs they have.
    pub cces: u16,
}

/// The sets that a handset looks at in a slot.
#[derive(Debug, Drop, PartialEq, Eq)]
pub struct Allotment {
    /// Their places in the handset's list, in search order.
    pub sets: ArrayVec<u16, 10>,
    /// How many candidates they have.
    pub candidates: u16,
    /// How many CCEs they have.
    pub cces: u16,
}

/// The sets that a handset looks at in a slot: the common ones, and the longest front of the others that keeps both
/// limits with them. `Err` exactly where the common sets exceed a limit. `sizes` are the handset's.
#[tactic(auto, unfolding(crate::specs::Allotting::allotted))]
pub fn allot(
    cell: &Cell,
    handset: usize,
    sizes: &Sizes,
    frame: u16,
    slot: u16,
) -> Result<Allotment, CommonOver>
    requires handset { handset < length cell.now.handsets }
    requires frame { frame ≤ 1023 }
    requires slot { slot < 10 * 2 ^ cell.now.mu }
    ensures allotted { result ≡ allotted cell.now (handset_at cell.now handset) sizes.now frame slot }
    ensures places { IfOk result (λ allotment. All (λ place. place < length (handset_at cell.now handset).sets.items)
        allotment.sets.items) }
{
    allot_core(cell, handset_in(cell, handset), sizes, frame, slot)
}

/// The same, for a handset of the cell.
fn allot_core(
    cell: &Cell,
    handset: &Handset,
    sizes: &Sizes,
    frame: u16,
    slot: u16,
) -> Result<Allotment, CommonOver>
    requires legal { IsLegalHandset cell.now handset.now }
    requires frame { frame ≤ 1023 }
    requires slot { slot < 10 * 2 ^ cell.now.mu }
    ensures allotted { result ≡ allotted cell.now handset.now sizes.now frame slot }
    ensures places { IfOk result (λ allotment. All (λ place. place < length handset.now.sets.items) allotment.sets.items) }
{
    let common = sets_in_slot(cell, handset, true, frame, slot);
    let own = sets_in_slot(cell, handset, false, frame, slot);
    let mut tally = Tally::new();
    if !keep_together(&mut tally, cell, handset, sizes, common.as_slice()) {
        return Err(common_over(cell, handset, sizes, common.as_slice()));
    }
    Ok(with_own(&mut tally, cell, handset, sizes, common, own.as_slice()))
}

/// The common sets, and the longest front of the handset's own sets that keeps both limits with them. The tally counts
/// the common sets, which keep the limits.
fn with_own(
    tally: &mut Tally<64>,
    cell: &Cell,
    handset: &Handset,
    sizes: &Sizes,
    common: ArrayVec<u16, 10>,
    own: &[u16],
) -> Allotment
    requires legal { IsLegalHandset cell.now handset.now }
    requires room { length common.items + length own.now ≤ 10 }
    requires places { All (λ place. place < length handset.now.sets.items) own.now }
    requires tally { Tallies cell.now handset.now sizes.now common.items tally.old }
    requires within { keep_limits cell.now handset.now sizes.now common.items ≡ true }
    ensures { result ≡ allotment_of cell.now handset.now sizes.now
        (common.items ++ longest_front cell.now handset.now sizes.now common.items own.now) }
{
    let mut allotment = Allotment {
        sets: common,
        candidates: tally.candidates(),
        cces: tally.cces(),
    };
    for place in own {
        if !keeps_with(tally, cell, handset, sizes, *place) {
            return allotment;
        }
        allotment.sets.push(*place);
        allotment.candidates = tally.candidates();
        allotment.cces = tally.cces();
    }
    allotment
}
