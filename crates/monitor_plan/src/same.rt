//! `==` of watches, which holds exactly of equal values.
ghost use Rattle.monitor_plan.specs.Equality.{decides_watch};

use crate::Watch;
use rrc_settings::Same;

impl Same for Watch {
    ghost decides = { decides_watch };
}
