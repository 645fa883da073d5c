//! The formats of a kind of set, their sizes and what decides their widths.
ghost use Rattle.std.specs.Prelude.{◌≡◌, true, Some, is_some};
ghost use Rattle.monitor_plan.specs.Watch.{fits, list_of, IsSound};
ghost use Rattle.dci_fields.specs.FormatsOfSets.{is_for_fallback, down_format, down_size, up_format, up_size, widths_in};

use crate::Watch;
use dci_fields::{FieldList, Format, Sizes, Widths, order_list};
use rrc_settings::SetKind;

impl Watch {
    /// Whether a format fits the watch: its set is for the format, and the format has the watch's size there.
    pub fn fits(&self, format: Format) -> bool
        ensures { result ≡ fits self.now format }
    {
        match format {
            Format::F00 => is_for_fallback(self.kind) && self.up.is_some(),
            Format::F10 => is_for_fallback(self.kind) && self.down.is_some(),
            Format::Order => is_for_fallback(self.kind) && self.down.is_some(),
            Format::F01 => !is_for_fallback(self.kind) && self.up.is_some(),
            Format::F11 => !is_for_fallback(self.kind) && self.down.is_some(),
        }
    }

    /// The fields of a format that fits the watch.
    pub fn list(&self, format: Format) -> FieldList
        requires sound { IsSound self.now }
        requires fits { fits self.now format ≡ true }
        ensures { result ≡ list_of self.now format }
    {
        match format {
            Format::F00 | Format::F01 => copy_there(&self.up),
            Format::F10 | Format::F11 => copy_there(&self.down),
            Format::Order => order_list(&copy_there(&self.down)),
        }
    }
}

/// A copy of the list that is there.
fn copy_there(list: &Option<FieldList>) -> FieldList
    requires { is_some list.now ≡ true }
    ensures { list.now ≡ Some result }
{
    match list {
        Some(list) => copy_of(list),
        None => unreachable!(),
    }
}

/// A copy of a list, which takes no memory.
pub(crate) fn copy_of(list: &FieldList) -> FieldList
    ensures { result ≡ list.now }
{
    match list.clone() {
        Ok(copy) => copy,
        Err(_) => unreachable!(),
    }
}

/// Whether a kind of set is for the formats of fallback.
pub(crate) fn is_for_fallback(kind: SetKind) -> bool
    ensures { result ≡ is_for_fallback kind }
{
    kind != SetKind::Specific
}

/// The uplink format of a kind of set.
pub(crate) fn up_format(kind: SetKind) -> Format
    ensures { result ≡ up_format kind }
{
    match kind {
        SetKind::Common | SetKind::Fallback => Format::F00,
        SetKind::Specific => Format::F01,
    }
}

/// The downlink format of a kind of set.
pub(crate) fn down_format(kind: SetKind) -> Format
    ensures { result ≡ down_format kind }
{
    match kind {
        SetKind::Common | SetKind::Fallback => Format::F10,
        SetKind::Specific => Format::F11,
    }
}

/// The size of the uplink format in a kind of set.
pub(crate) fn up_size(sizes: &Sizes, kind: SetKind) -> Option<u16>
    ensures { result ≡ up_size sizes.now kind }
{
    match kind {
        SetKind::Common => sizes.common,
        SetKind::Fallback => sizes.fallback,
        SetKind::Specific => sizes.up,
    }
}

/// The size of the downlink format in a kind of set.
pub(crate) fn down_size(sizes: &Sizes, kind: SetKind) -> Option<u16>
    ensures { result ≡ down_size sizes.now kind }
{
    match kind {
        SetKind::Common => sizes.common,
        SetKind::Fallback => sizes.fallback,
        SetKind::Specific => sizes.down,
    }
}

/// The bandwidth part that decides the widths in a kind of set.
pub(crate) fn widths_in(sizes: &Sizes, kind: SetKind) -> Widths
    ensures { result ≡ widths_in sizes.now kind }
{
    match kind {
        SetKind::Common => Widths::Common,
        SetKind::Fallback => {
            if sizes.step4 {
                Widths::Common
            } else {
                Widths::Own
            }
        }
        SetKind::Specific => Widths::Own,
    }
}
