//! `==` of lists of grants, which holds exactly of equal values.
ghost use Rattle.std.proofs.lemmas.Slice.Eq.{bytes_eq-Decides};
ghost use Rattle.grant_file.specs.Equality.{decides_grant, decides_key, decides_list_of_grants, decides_place};

use crate::{FieldWord, Grant, GrantKey, GrantList, GrantPlace};
use rrc_settings::Same;

impl Same for FieldWord {
    ghost decides = { bytes_eq-Decides };
}

impl Same for GrantKey {
    ghost decides = { decides_key };
}

impl Same for GrantPlace {
    ghost decides = { decides_place };
}

impl Same for Grant {
    ghost decides = { decides_grant };
}

impl Same for GrantList {
    ghost decides = { decides_list_of_grants };
}
