//! What the settings of a handset may not say together, in order.
ghost use Rattle.std.specs.Prelude.{◌≡◌, ◌<◌, ◌≤◌, ◌||◌, ◌&&◌, not, [], nat_eq, nat_lt, is_none, bytes_eq, length, IfOk, Some};
ghost use Rattle.std.specs.List.{list_any};
ghost use Rattle.rrc_settings.specs.Faults.{◌▸◌, found_by, each_after, if_given};
ghost use Rattle.rrc_settings.specs.Conflicts.{conflict, is_semi_static, uplink_conflicts, downlink_conflicts};
ghost use Rattle.rrc_settings.specs.Conflicts.{handset_conflicts, cell_conflicts};
ghost use Rattle.rrc_settings.specs.declared.words.Key.TheVariants as keys;

use crate::coreset_conflicts::coresets_conflicts;
use crate::set_conflicts::sets_conflicts;
use crate::{
    Codebook, DownlinkFields, Handset, Key, Name, Place, RawCell, Reason, SettingsFault,
    UplinkFields,
};

/// The most blocks that a bandwidth part of the uplink ends at.
const MOST_BLOCKS: u16 = 275;

/// The conflict at a key of the object at this place, where there is one.
#[tactic(auto, unfolding(crate::specs::Faults::unless, crate::specs::Conflicts::conflict))]
pub(crate) fn refuse_if(at: &Place, key: Key, is_conflict: bool) -> Result<(), SettingsFault>
    requires { length at.now.steps.items ≤ 5 }
    ensures { found_by result ≡ conflict at.now.steps.items key is_conflict }
{
    if is_conflict {
        Err(at.key(key).fault(Reason::Conflict))
    } else {
        Ok(())
    }
}

/// The conflicts of what decides the fields of format 0_1.
#[tactic(auto, unfolding(crate::specs::Conflicts::uplink_conflicts))]
fn uplink_conflicts(
    codebook: Codebook,
    at: &Place,
    fields: &UplinkFields,
) -> Result<(), SettingsFault>
    requires { length at.now.steps.items ≤ 5 }
    ensures { found_by result ≡ uplink_conflicts codebook at.now.steps.items fields.now }
{
    refuse_if(
        at,
        Key::SecondDai,
        fields.second_dai && is_semi_static(codebook),
    )?;
    refuse_if(at, Key::DmrsType, fields.transform && fields.dmrs_type == 2)
}

/// Whether the layout of acknowledgements is fixed.
fn is_semi_static(codebook: Codebook) -> bool
    ensures { result ≡ is_semi_static codebook }
{
    match codebook {
        Codebook::SemiStatic => true,
        Codebook::Dynamic => false,
    }
}

/// The conflicts of what decides the fields of format 1_1.
#[tactic(auto, unfolding(crate::specs::Conflicts::downlink_conflicts))]
fn downlink_conflicts(at: &Place, fields: &DownlinkFields) -> Result<(), SettingsFault>
    requires { length at.now.steps.items ≤ 5 }
    ensures { found_by result ≡ downlink_conflicts at.now.steps.items fields.now }
{
    refuse_if(at, Key::Flush, fields.flush && fields.cbg == 0)
}

/// Whether one of the handsets has this name.
fn has_name(handsets: &[Handset], name: &Name) -> bool
    ensures { result ≡ list_any (λ e. bytes_eq e.name name.now) handsets.now }
{
    handsets.iter().any(|earlier| earlier.name == *name)
}

/// Whether one of the handsets has this identity.
fn has_rnti(handsets: &[Handset], rnti: u16) -> bool
    ensures { result ≡ list_any (λ e. nat_eq e.rnti rnti) handsets.now }
{
    handsets.iter().any(|earlier| earlier.rnti == rnti)
}

/// The conflicts of a handset with the earlier ones, with its cell and within itself.
#[tactic(auto, unfolding(crate::specs::Conflicts::handset_conflicts))]
fn handset_conflicts(
    cell: &RawCell,
    earlier: &[Handset],
    at: &Place,
    handset: &Handset,
) -> Result<(), SettingsFault>
    requires { length at.now.steps.items ≤ 2 }
    ensures { found_by result ≡ handset_conflicts cell.now earlier.now at.now.steps.items handset.now }
{
    refuse_if(at, Key::Name, has_name(earlier, &handset.name))?;
    refuse_if(at, Key::Rnti, has_rnti(earlier, handset.rnti))?;
    refuse_if(
        at,
        Key::Downlink,
        handset.downlink.end() > cell.blocks as u32,
    )?;
    refuse_if(at, Key::Uplink, handset.uplink.end() > MOST_BLOCKS as u32)?;
    let coresets = at.key(Key::Coresets);
    coresets_conflicts(&handset.downlink, &coresets, handset.coresets.as_slice())?;
    sets_conflicts(handset, &at.key(Key::Sets), handset.sets.as_slice())?;
    if let Some(fields) = &handset.uplink_fields {
        uplink_conflicts(handset.codebook, &at.key(Key::UplinkFields), fields)?;
    }
    if let Some(fields) = &handset.downlink_fields {
        downlink_conflicts(&at.key(Key::DownlinkFields), fields)?;
    }
    Ok(())
}

/// The conflicts of a list of handsets.
#[tactic(auto, using(crate::proofs::Each::first_in_next))]
fn handsets_conflicts(cell: &RawCell, at: &Place, handsets: &[Handset]) -> Result<(), SettingsFault>
    requires few { length handsets.now ≤ 64 }
    requires room { length at.now.steps.items ≤ 1 }
    ensures { found_by result ≡ each_after (handset_conflicts cell.now) at.now.steps.items handsets.now }
{
    for (index, handset) in handsets.iter().enumerate() {
        handset_conflicts(cell, &handsets[..index], &at.index(index), handset)?;
    }
    Ok(())
}

/// The conflicts of a cell.
#[tactic(auto, unfolding(crate::specs::Conflicts::cell_conflicts))]
pub(crate) fn cell_conflicts(raw: &RawCell) -> Result<(), SettingsFault>
    requires { length raw.now.handsets ≤ 64 }
    ensures { found_by result ≡ cell_conflicts raw.now }
{
    let at = Place::top().key(Key::Handsets);
    handsets_conflicts(raw, &at, raw.handsets.as_slice())
}
