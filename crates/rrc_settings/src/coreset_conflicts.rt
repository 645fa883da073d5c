//! What a CORESET may not say together (3GPP TS 38.211, 7.3.2.2).
ghost use Rattle.std.specs.Prelude.{◌≡◌, ◌≤◌, nat_eq, length};
ghost use Rattle.std.specs.List.{list_any};
ghost use Rattle.rrc_settings.specs.Faults.{found_by, each_after};
ghost use Rattle.rrc_settings.specs.GroupBits.{bits_reach};
ghost use Rattle.rrc_settings.specs.Conflicts.{bundle_differs, rows_differ, reaches_outside};
ghost use Rattle.rrc_settings.specs.Conflicts.{interleave_conflicts, coreset_conflicts};

use crate::conflicts::refuse_if;
use crate::groups::{count_of_groups, group_block, has_bit};
use crate::{Bwp, Coreset, Interleave, Key, Place, SettingsFault};

/// Whether the group of a bit that is one reaches outside the bandwidth part.
#[tactic(auto, unfolding(crate::specs::GroupBits::bits_reach))]
fn bits_reach(bwp: &Bwp, groups: u64) -> bool
    ensures { result ≡ bits_reach bwp.now groups }
{
    let start = bwp.start;
    let end = bwp.end();
    (0..64).any(|group| has_bit(groups, group) && end < group_block(start, group) + 6)
}

/// Whether a group reaches outside the bandwidth part.
#[tactic(auto, using(crate::proofs::GroupTests::groups_reach))]
fn reaches_outside(bwp: &Bwp, groups: u64) -> bool
    ensures { result ≡ reaches_outside bwp.now groups }
{
    bits_reach(bwp, groups)
}

/// Whether a bundle does not go with a duration.
fn bundle_differs(bundle: u16, duration: u16) -> bool
    ensures { result ≡ bundle_differs bundle duration }
{
    bundle == 3 && duration < 3 || bundle == 2 && duration == 3
}

/// Whether the REGs do not fill the interleaver's rows.
fn rows_differ(coreset: &Coreset, interleave: &Interleave) -> bool
    ensures { result ≡ rows_differ coreset.now interleave.now }
{
    let regs = 6 * coreset.cces();
    let part = interleave.bundle as u32 * interleave.rows as u32;
    if part == 0 {
        return regs != 0;
    }
    regs % part != 0
}

/// The conflicts of an interleaver with its CORESET.
#[tactic(auto, unfolding(crate::specs::Conflicts::interleave_conflicts))]
fn interleave_conflicts(
    coreset: &Coreset,
    at: &Place,
    interleave: &Interleave,
) -> Result<(), SettingsFault>
    requires { length at.now.steps.items ≤ 5 }
    ensures { found_by result ≡ interleave_conflicts coreset.now at.now.steps.items interleave.now }
{
    refuse_if(
        at,
        Key::Bundle,
        bundle_differs(interleave.bundle, coreset.duration),
    )?;
    refuse_if(at, Key::Rows, rows_differ(coreset, interleave))
}

/// Whether one of the CORESETs has this number.
fn has_number(coresets: &[Coreset], number: u16) -> bool
    ensures { result ≡ list_any (λ e. nat_eq e.number number) coresets.now }
{
    coresets.iter().any(|earlier| earlier.number == number)
}

/// The conflicts of a CORESET with the earlier ones and with its bandwidth part.
#[tactic(auto, unfolding(crate::specs::Conflicts::coreset_conflicts))]
fn coreset_conflicts(
    downlink: &Bwp,
    earlier: &[Coreset],
    at: &Place,
    coreset: &Coreset,
) -> Result<(), SettingsFault>
    requires { length at.now.steps.items ≤ 4 }
    ensures { found_by result ≡ coreset_conflicts downlink.now earlier.now at.now.steps.items coreset.now }
{
    refuse_if(at, Key::Number, has_number(earlier, coreset.number))?;
    let is_empty = count_of_groups(coreset.groups) == 0;
    refuse_if(
        at,
        Key::Groups,
        is_empty || reaches_outside(downlink, coreset.groups),
    )?;
    if let Some(interleave) = &coreset.interleave {
        interleave_conflicts(coreset, &at.key(Key::Interleave), interleave)?;
    }
    Ok(())
}

/// The conflicts of a list of CORESETs.
#[tactic(auto, using(crate::proofs::Each::first_in_next))]
pub(crate) fn coresets_conflicts(
    downlink: &Bwp,
    at: &Place,
    coresets: &[Coreset],
) -> Result<(), SettingsFault>
    requires few { length coresets.now ≤ 64 }
    requires room { length at.now.steps.items ≤ 3 }
    ensures { found_by result ≡ each_after (coreset_conflicts downlink.now) at.now.steps.items coresets.now }
{
    for (index, coreset) in coresets.iter().enumerate() {
        coreset_conflicts(downlink, &coresets[..index], &at.index(index), coreset)?;
    }
    Ok(())
}
