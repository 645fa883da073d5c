//! What a search space set may not say together (3GPP TS 38.213, 10.1).
ghost use Rattle.std.specs.Prelude.{◌≡◌, ◌≤◌, nat_eq, length, option_copied};
ghost use Rattle.std.specs.List.{list_any};
ghost use Rattle.rrc_settings.specs.Faults.{found_by, each_after};
ghost use Rattle.rrc_settings.specs.HandsetsOfCell.{coreset_numbered};
ghost use Rattle.rrc_settings.specs.SetKinds.{is_common, is_specific};
ghost use Rattle.rrc_settings.specs.Conflicts.{asks_above, ends_after_slot, set_conflicts, timing_conflicts};

use crate::conflicts::refuse_if;
use crate::groups::has_bit;
use crate::levels::LEVELS;
use crate::{Coreset, Handset, Key, Place, SearchSet, SetKind, SettingsFault};

/// Whether a CORESET of this duration that begins at one of the symbols ends after the slot.
#[tactic(auto, unfolding(crate::specs::Conflicts::ends_after_slot))]
fn ends_after_slot(duration: u16, symbols: u16) -> bool
    ensures { result ≡ ends_after_slot duration symbols }
{
    (0..16).any(|symbol| has_bit(symbols as u64, symbol) && 14 < symbol + duration as u32)
}

/// Whether there are candidates at a level above so many CCEs.
#[tactic(auto, unfolding(crate::specs::Conflicts::asks_above))]
fn asks_above(cces: u32, candidates: &[u16; 5]) -> bool
    ensures { result ≡ asks_above cces candidates.now }
{
    (0..5).any(|level| 0 < candidates[level] && cces < LEVELS[level] as u32)
}

/// The CORESET with a number.
fn coreset_numbered(coresets: &[Coreset], number: u16) -> Option<&Coreset>
    ensures { option_copied result ≡ coreset_numbered number coresets.now }
{
    coresets.iter().find(|coreset| coreset.number == number)
}

/// Whether a set is common.
fn is_common(kind: SetKind) -> bool
    ensures { result ≡ is_common kind }
{
    match kind {
        SetKind::Common => true,
        SetKind::Fallback | SetKind::Specific => false,
    }
}

/// Whether a set is specific.
fn is_specific(kind: SetKind) -> bool
    ensures { result ≡ is_specific kind }
{
    match kind {
        SetKind::Specific => true,
        SetKind::Common | SetKind::Fallback => false,
    }
}

/// Whether one of the sets has this number.
fn has_number(sets: &[SearchSet], number: u16) -> bool
    ensures { result ≡ list_any (λ e. nat_eq e.number number) sets.now }
{
    sets.iter().any(|earlier| earlier.number == number)
}

/// The conflicts of a set with its CORESET, where it has one, and within itself.
#[tactic(auto, unfolding(crate::specs::Conflicts::timing_conflicts))]
fn timing_conflicts(
    coreset: Option<&Coreset>,
    at: &Place,
    set: &SearchSet,
) -> Result<(), SettingsFault>
    requires { length at.now.steps.items ≤ 5 }
    ensures { found_by result ≡ timing_conflicts (option_copied coreset.entry) at.now.steps.items set.now }
{
    refuse_if(at, Key::Offset, set.period <= set.offset)?;
    refuse_if(
        at,
        Key::Duration,
        1 < set.duration && set.period <= set.duration,
    )?;
    let ends_late = match coreset {
        Some(coreset) => ends_after_slot(coreset.duration, set.symbols),
        None => false,
    };
    refuse_if(at, Key::Symbols, set.symbols == 0 || ends_late)?;
    let is_above = match coreset {
        Some(coreset) => asks_above(coreset.cces(), &set.candidates),
        None => false,
    };
    refuse_if(at, Key::Candidates, is_above)?;
    refuse_if(at, Key::Base, is_common(set.kind) && set.base != 0)
}

/// The conflicts of a set with the earlier ones and with its handset.
#[tactic(auto, unfolding(crate::specs::Conflicts::set_conflicts, crate::specs::Conflicts::timing_conflicts))]
fn set_conflicts(
    handset: &Handset,
    earlier: &[SearchSet],
    at: &Place,
    set: &SearchSet,
) -> Result<(), SettingsFault>
    requires { length at.now.steps.items ≤ 4 }
    ensures { found_by result ≡ set_conflicts handset.now earlier.now at.now.steps.items set.now }
{
    refuse_if(at, Key::Number, has_number(earlier, set.number))?;
    let coreset = coreset_numbered(handset.coresets.as_slice(), set.coreset);
    refuse_if(at, Key::Coreset, coreset.is_none())?;
    let lacks_fields = handset.uplink_fields.is_none() || handset.downlink_fields.is_none();
    refuse_if(at, Key::Kind, is_specific(set.kind) && lacks_fields)?;
    timing_conflicts(coreset, at, set)
}

/// The conflicts of a list of sets.
#[tactic(auto, using(crate::proofs::Each::first_in_next))]
pub(crate) fn sets_conflicts(
    handset: &Handset,
    at: &Place,
    sets: &[SearchSet],
) -> Result<(), SettingsFault>
    requires few { length sets.now ≤ 64 }
    requires room { length at.now.steps.items ≤ 3 }
    ensures { found_by result ≡ each_after (set_conflicts handset.now) at.now.steps.items sets.now }
{
    for (index, set) in sets.iter().enumerate() {
        set_conflicts(handset, &sets[..index], &at.index(index), set)?;
    }
    Ok(())
}
