//! The ranges of the numbers of a cell, a handset and its CORESETs and sets, each object's keys in order.
ghost use Rattle.std.specs.Prelude.{◌≡◌, ◌≤◌, [], OnOk, length};
ghost use Rattle.std.specs.List.{list_all};
ghost use Rattle.rrc_settings.specs.Faults.{◌▸◌, fault_at, found_by, unless};
ghost use Rattle.rrc_settings.specs.Numbers.{is_from_to, is_one_of};
ghost use Rattle.rrc_settings.specs.Table.{in_range, list_ranges, is_candidate_count, is_period, bwp_ranges};
ghost use Rattle.rrc_settings.specs.Table.{interleave_ranges, coreset_ranges, set_ranges, handset_ranges, cell_ranges};
ghost use Rattle.rrc_settings.specs.declared.words.Key.TheVariants as keys;
ghost use Rattle.rrc_settings.specs.declared.place.Reason.TheVariants as reasons;

use crate::field_ranges::{downlink_ranges, uplink_ranges};
use crate::{
    Bwp, Coreset, Handset, Interleave, Key, Place, RawCell, Reason, SearchSet, SettingsFault,
};

/// A number from `low` to `high` at a key of the object at this place.
#[tactic(auto, unfolding(crate::specs::Faults::unless, crate::specs::Table::in_range))]
pub(crate) fn between(
    at: &Place,
    key: Key,
    low: usize,
    high: usize,
    number: usize,
) -> Result<(), SettingsFault>
    requires { length at.now.steps.items ≤ 5 }
    ensures found { found_by result ≡ in_range at.now.steps.items key (is_from_to low high) number }
    ensures least { OnOk result (low ≤ number) }
    ensures most { OnOk result (number ≤ high) }
{
    if low <= number && number <= high {
        Ok(())
    } else {
        Err(at.key(key).fault(Reason::OutOfRange))
    }
}

/// One of the numbers of a list at a key of the object at this place.
#[tactic(auto, unfolding(crate::specs::Faults::unless, crate::specs::Table::in_range))]
pub(crate) fn one_of(
    at: &Place,
    key: Key,
    choices: &[u16],
    number: u16,
) -> Result<(), SettingsFault>
    requires { length at.now.steps.items ≤ 5 }
    ensures { found_by result ≡ in_range at.now.steps.items key (is_one_of choices.now) number }
{
    if is_among(choices, number) {
        Ok(())
    } else {
        Err(at.key(key).fault(Reason::OutOfRange))
    }
}

/// Whether a number is one of a list.
fn is_among(choices: &[u16], number: u16) -> bool
    ensures { result ≡ is_one_of choices.now number }
{
    choices.iter().any(|choice| number == *choice)
}

/// The numbers of a bandwidth part.
#[tactic(auto, unfolding(crate::specs::Table::bwp_ranges))]
fn bwp_ranges(at: &Place, bwp: &Bwp) -> Result<(), SettingsFault>
    requires { length at.now.steps.items ≤ 5 }
    ensures { found_by result ≡ bwp_ranges at.now.steps.items bwp.now }
{
    between(at, Key::Start, 0, 269, bwp.start as usize)?;
    between(at, Key::Size, 6, 275, bwp.size as usize)
}

/// The numbers of an interleaver.
#[tactic(auto, unfolding(crate::specs::Table::interleave_ranges))]
fn interleave_ranges(at: &Place, interleave: &Interleave) -> Result<(), SettingsFault>
    requires { length at.now.steps.items ≤ 5 }
    ensures { found_by result ≡ interleave_ranges at.now.steps.items interleave.now }
{
    one_of(at, Key::Bundle, &[2, 3, 6], interleave.bundle)?;
    one_of(at, Key::Rows, &[2, 3, 6], interleave.rows)?;
    if let Some(shift) = interleave.shift {
        between(at, Key::Shift, 0, 274, shift as usize)?;
    }
    Ok(())
}

/// The numbers of a CORESET.
#[tactic(auto, unfolding(crate::specs::Table::coreset_ranges))]
fn coreset_ranges(at: &Place, coreset: &Coreset) -> Result<(), SettingsFault>
    requires { length at.now.steps.items ≤ 4 }
    ensures { found_by result ≡ coreset_ranges at.now.steps.items coreset.now }
{
    between(at, Key::Number, 1, 11, coreset.number as usize)?;
    between(at, Key::Duration, 1, 3, coreset.duration as usize)?;
    if let Some(interleave) = &coreset.interleave {
        interleave_ranges(&at.key(Key::Interleave), interleave)?;
    }
    if let Some(id) = coreset.dmrs_id {
        between(at, Key::DmrsId, 0, 65535, id as usize)?;
    }
    Ok(())
}

/// How many CORESETs there are, and the numbers of each.
#[tactic(auto, using(crate::proofs::Each::first_in_next))]
fn coresets_ranges(at: &Place, coresets: &[Coreset]) -> Result<(), SettingsFault>
    requires { length at.now.steps.items ≤ 2 }
    ensures { found_by result ≡ list_ranges keys.Coresets 1 3 coreset_ranges at.now.steps.items coresets.now }
{
    between(at, Key::Coresets, 1, 3, coresets.len())?;
    let list = at.key(Key::Coresets);
    for (index, coreset) in coresets.iter().enumerate() {
        coreset_ranges(&list.index(index), coreset)?;
    }
    Ok(())
}

/// How many candidates there are at each level.
#[tactic(auto, unfolding(crate::specs::Faults::unless))]
fn candidates_ranges(at: &Place, candidates: &[u16; 5]) -> Result<(), SettingsFault>
    requires { length at.now.steps.items ≤ 5 }
    ensures { found_by result ≡ unless (fault_at (at.now.steps.items ▸ keys.Candidates) reasons.OutOfRange)
        (list_all is_candidate_count candidates.now) }
{
    if are_candidate_counts(candidates) {
        Ok(())
    } else {
        Err(at.key(Key::Candidates).fault(Reason::OutOfRange))
    }
}

/// Whether a level may have each of these numbers of candidates.
fn are_candidate_counts(candidates: &[u16]) -> bool
    ensures { result ≡ list_all is_candidate_count candidates.now }
{
    for count in candidates {
        if !is_among(&[0, 1, 2, 3, 4, 5, 6, 8], *count) {
            return false;
        }
    }
    true
}

/// The number of slots in a period.
fn period_range(at: &Place, period: u16) -> Result<(), SettingsFault>
    requires { length at.now.steps.items ≤ 5 }
    ensures { found_by result ≡ in_range at.now.steps.items keys.Period is_period period }
{
    const PERIODS: [u16; 15] = [1, 2, 4, 5, 8, 10, 16, 20, 40, 80, 160, 320, 640, 1280, 2560];
    one_of(at, Key::Period, &PERIODS, period)
}

/// The numbers of a search space set.
#[tactic(auto, unfolding(crate::specs::Table::set_ranges))]
fn set_ranges(at: &Place, set: &SearchSet) -> Result<(), SettingsFault>
    requires { length at.now.steps.items ≤ 5 }
    ensures { found_by result ≡ set_ranges at.now.steps.items set.now }
{
    between(at, Key::Number, 1, 39, set.number as usize)?;
    between(at, Key::Coreset, 1, 11, set.coreset as usize)?;
    period_range(at, set.period)?;
    between(at, Key::Offset, 0, 2559, set.offset as usize)?;
    between(at, Key::Duration, 1, 2559, set.duration as usize)?;
    candidates_ranges(at, &set.candidates)?;
    between(at, Key::Base, 0, 65535, set.base as usize)
}

/// How many sets there are, and the numbers of each.
#[tactic(auto, using(crate::proofs::Each::first_in_next))]
fn sets_ranges(at: &Place, sets: &[SearchSet]) -> Result<(), SettingsFault>
    requires { length at.now.steps.items ≤ 2 }
    ensures { found_by result ≡ list_ranges keys.Sets 1 10 set_ranges at.now.steps.items sets.now }
{
    between(at, Key::Sets, 1, 10, sets.len())?;
    let list = at.key(Key::Sets);
    for (index, set) in sets.iter().enumerate() {
        set_ranges(&list.index(index), set)?;
    }
    Ok(())
}

/// The numbers of a handset.
#[tactic(auto, unfolding(crate::specs::Table::handset_ranges))]
fn handset_ranges(at: &Place, handset: &Handset) -> Result<(), SettingsFault>
    requires { length at.now.steps.items ≤ 2 }
    ensures { found_by result ≡ handset_ranges at.now.steps.items handset.now }
{
    between(at, Key::Rnti, 1, 65519, handset.rnti as usize)?;
    bwp_ranges(&at.key(Key::Downlink), &handset.downlink)?;
    bwp_ranges(&at.key(Key::Uplink), &handset.uplink)?;
    coresets_ranges(at, handset.coresets.as_slice())?;
    sets_ranges(at, handset.sets.as_slice())?;
    if let Some(fields) = &handset.uplink_fields {
        uplink_ranges(&at.key(Key::UplinkFields), fields)?;
    }
    if let Some(fields) = &handset.downlink_fields {
        downlink_ranges(&at.key(Key::DownlinkFields), fields)?;
    }
    Ok(())
}

/// How many handsets there are, and the numbers of each.
#[tactic(auto, using(crate::proofs::Each::first_in_next))]
fn handsets_ranges(at: &Place, handsets: &[Handset]) -> Result<(), SettingsFault>
    requires { at.now.steps.items ≡ [] }
    ensures found { found_by result ≡ list_ranges keys.Handsets 1 64 handset_ranges [] handsets.now }
    ensures few { OnOk result (length handsets.now ≤ 64) }
{
    between(at, Key::Handsets, 1, 64, handsets.len())?;
    let list = at.key(Key::Handsets);
    for (index, handset) in handsets.iter().enumerate() {
        handset_ranges(&list.index(index), handset)?;
    }
    Ok(())
}

/// The numbers of a cell.
#[tactic(auto, unfolding(crate::specs::Table::cell_ranges))]
pub(crate) fn cell_ranges(raw: &RawCell) -> Result<(), SettingsFault>
    ensures found { found_by result ≡ cell_ranges raw.now }
    ensures few { OnOk result (length raw.now.handsets ≤ 64) }
{
    let at = Place::top();
    between(&at, Key::Version, 1, 1, raw.version as usize)?;
    between(&at, Key::Cell, 0, 1007, raw.cell as usize)?;
    between(&at, Key::Mu, 0, 3, raw.mu as usize)?;
    between(&at, Key::Blocks, 6, 275, raw.blocks as usize)?;
    between(
        &at,
        Key::InitialDownlink,
        6,
        275,
        raw.initial_downlink as usize,
    )?;
    between(&at, Key::InitialUplink, 6, 275, raw.initial_uplink as usize)?;
    if let Some(size) = raw.coreset0 {
        one_of(&at, Key::Coreset0, &[24, 48, 96], size)?;
    }
    handsets_ranges(&at, raw.handsets.as_slice())
}
