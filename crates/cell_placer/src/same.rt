//! `==` of what becomes of a grant, which holds exactly of equal values.
ghost use Rattle.cell_placer.specs.Equality.{decides_placed, decides_refusal};

use crate::{Placed, Refusal};
use rrc_settings::Same;

impl Same for Placed {
    ghost decides = { decides_placed };
}

impl Same for Refusal {
    ghost decides = { decides_refusal };
}
