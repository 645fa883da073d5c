//! What holds of all watches: a law over the definitions that the layers above name, as the contract of a function with nothing
//! to do.
ghost use Rattle.monitor_plan.specs.Watch.{TellsSharedRegs};

/// The test of shared REGs tells whether two watches share a REG of the slot.
pub fn tells_shared_regs()
    ensures { TellsSharedRegs }
{}
