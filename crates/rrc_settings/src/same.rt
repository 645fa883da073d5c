//! `==` of the settings, which holds exactly of equal values.
ghost use Rattle.std.specs.Prelude.{◌≡◌, ◌↔◌, IsTrue, Decides};
ghost use Rattle.std.proofs.lemmas.Slice.Eq.{bytes_eq-Decides};
ghost use Rattle.rrc_settings.specs.Equality.{decides_list, decides_array_vec, decides_set_kind, decides_codebook};
ghost use Rattle.rrc_settings.specs.Equality.{decides_allocation, decides_bwp, decides_interleave, decides_coreset};
ghost use Rattle.rrc_settings.specs.Equality.{decides_search_set, decides_uplink_fields, decides_downlink_fields};
ghost use Rattle.rrc_settings.specs.Equality.{decides_handset, decides_raw_cell};

use crate::{
    Allocation, Bwp, Codebook, Coreset, DownlinkFields, Handset, Interleave, Items, Name, RawCell,
    SearchSet, SetKind, UplinkFields,
};
use arrayvec::ArrayVec;

/// A type whose `==` holds exactly of equal values.
pub trait Same: PartialEq {
    ghost decides: { (a b : Self) → Decides (Self.eq a b) (a ≡ b) };
}

/// Whether two values are equal.
pub fn is_same<T: Same>(a: &T, b: &T) -> bool
    ensures { IsTrue result ↔ (a.now ≡ b.now) }
{
    a == b
}

impl Same for Name {
    ghost decides = { bytes_eq-Decides };
}

impl<T: Same> Same for Items<T> {
    ghost decides = { decides_list T.decides };
}

impl<T: Same, const N: usize> Same for ArrayVec<T, N> {
    ghost decides = { decides_array_vec T.decides };
}

impl Same for SetKind {
    ghost decides = { decides_set_kind };
}

impl Same for Codebook {
    ghost decides = { decides_codebook };
}

impl Same for Allocation {
    ghost decides = { decides_allocation };
}

impl Same for Bwp {
    ghost decides = { decides_bwp };
}

impl Same for Interleave {
    ghost decides = { decides_interleave };
}

impl Same for Coreset {
    ghost decides = { decides_coreset };
}

impl Same for SearchSet {
    ghost decides = { decides_search_set };
}

impl Same for UplinkFields {
    ghost decides = { decides_uplink_fields };
}

impl Same for DownlinkFields {
    ghost decides = { decides_downlink_fields };
}

impl Same for Handset {
    ghost decides = { decides_handset };
}

impl Same for RawCell {
    ghost decides = { decides_raw_cell };
}
