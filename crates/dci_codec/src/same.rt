//! `==` of what is heard and of why nothing is, which holds exactly of equal values.
ghost use Rattle.dci_codec.specs.Equality.{decides_heard, decides_silence};

use crate::{Heard, Silence};
use rrc_settings::Same;

impl Same for Heard {
    ghost decides = { decides_heard };
}

impl Same for Silence {
    ghost decides = { decides_silence };
}
