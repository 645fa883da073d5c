//! The grants of the load.
ghost use Rattle.std.specs.Prelude.{◌≡◌, ◌<◌, ◌++◌, true, Some, IfOk, OnOk, map};
ghost use Rattle.std.specs.List.{range_with_len};
ghost use Rattle.dci_fields.specs.Words.{word_of};
ghost use Rattle.grant_file.specs.FieldWord.{is_field_word};
ghost use Rattle.par_sweep.specs.LoadGrants.{load_given, load_grant, load_grants, load_words};

use crate::load::{HANDSETS, handset_name};
use bits_core::NoMemory;
use dci_fields::{FieldName, Format, Given};
use grant_file::{FieldWord, Grant, GrantList};
use rrc_settings::Items;
use std::alloc::{AllocError, Global};

/// The grants of a slot of the load: one of format 1_0 for each handset, then one of format 0_0 for each.
pub fn load_grants(alloc: Global, t: u32) -> Result<GrantList, NoMemory>
    requires { t < 200 }
    ensures { IfOk result (λ list. list ≡ load_grants t) }
{
    match list_of(alloc, t as u16) {
        Ok(list) => Ok(list),
        Err(_) => Err(NoMemory),
    }
}

/// The same, by a number of 16 bits.
#[tactic(auto, unfolding(crate::specs::LoadGrants::load_grants))]
fn list_of(alloc: Global, t: u16) -> Result<GrantList, AllocError>
    requires { t < 200 }
    ensures { IfOk result (λ list. list ≡ load_grants t) }
{
    let mut grants = Vec::with_capacity(alloc, 2 * usize::from(HANDSETS))?;
    push_grants(alloc, t, Format::F10, &mut grants)?;
    push_grants(alloc, t, Format::F00, &mut grants)?;
    Ok(GrantList {
        frame: t / 10,
        slot: t % 10,
        grants: Items::from_vec(grants),
    })
}

/// Appends a grant of a format for each handset.
fn push_grants(
    alloc: Global,
    t: u16,
    format: Format,
    grants: &mut Vec<Grant>,
) -> Result<(), AllocError>
    requires { t < 200 }
    ensures { OnOk result (grants.new.items ≡ grants.old.items ++ map (load_grant t format) (range_with_len 0 32)) }
{
    for handset in 0..HANDSETS {
        grants.push(grant(alloc, t, format, handset)?)?;
    }
    Ok(())
}

/// The grant of a format for a handset.
fn grant(alloc: Global, t: u16, format: Format, handset: u16) -> Result<Grant, AllocError>
    requires t { t < 200 }
    requires handset { handset < 32 }
    ensures { IfOk result (λ grant. grant ≡ load_grant t format handset) }
{
    Ok(Grant {
        handset: handset_name(alloc, handset)?,
        set: 1,
        level: 2,
        candidate: None,
        symbol: None,
        format,
        given: given(alloc, u64::from(t), u64::from(handset))?,
        words: words(alloc)?,
    })
}

/// The values that it gives, in the order of the format's fields; no file was read, so their words need not ascend.
fn given(alloc: Global, t: u64, handset: u64) -> Result<Items<Given>, AllocError>
    requires t { t < 200 }
    requires handset { handset < 32 }
    ensures { IfOk result (λ given. given ≡ load_given t handset) }
{
    let given = [
        value(FieldName::Fdra, 1911 + 8 * handset),
        value(FieldName::Tdra, t % 16),
        value(FieldName::Mcs, handset % 28),
        value(FieldName::Harq, (handset + t) % 16),
    ];
    Ok(Items::from_vec(Vec::from_array(alloc, given)?))
}

/// A value for a field.
fn value(name: FieldName, value: u64) -> Given
    ensures { result ≡ record { name = Some name; value = value } }
{
    Given {
        name: Some(name),
        value,
    }
}

/// The words of these fields.
fn words(alloc: Global) -> Result<Items<FieldWord>, AllocError>
    ensures { IfOk result (λ words. words ≡ load_words) }
{
    let words = [
        field_word(FieldName::Fdra),
        field_word(FieldName::Tdra),
        field_word(FieldName::Mcs),
        field_word(FieldName::Harq),
    ];
    Ok(Items::from_vec(Vec::from_array(alloc, words)?))
}

/// The word of a field.
fn field_word(name: FieldName) -> FieldWord
    requires { is_field_word (word_of name) ≡ true }
    ensures { result ≡ word_of name }
{
    match FieldWord::of(name.word()) {
        Some(word) => word,
        None => unreachable!(),
    }
}
