//! What holds of the load in each slot: a law over the definitions that the contracts name, as the contract of a function with
//! nothing to do.
ghost use Rattle.par_sweep.specs.Slots.{PlansEverySlot};

/// In each slot of the load there is a desk, and each handset has a plan.
pub fn plans_every_slot()
    ensures { PlansEverySlot }
{}
