//! `==` of candidates and allotments, which holds exactly of equal values.
ghost use Rattle.monitor_budget.specs.Equality.{decides_allotment, decides_candidate, decides_common_over};

use crate::{Allotment, Candidate, CommonOver};
use rrc_settings::Same;

impl Same for Candidate {
    ghost decides = { decides_candidate };
}

impl Same for CommonOver {
    ghost decides = { decides_common_over };
}

impl Same for Allotment {
    ghost decides = { decides_allotment };
}
