//! The summary of the first slots of the generated load.
ghost use Rattle.std.specs.Prelude.{◌≤◌};
ghost use Rattle.run_steps.specs.Outcome.{ended};
ghost use Rattle.run_steps.specs.Steps.{Ends};
ghost use Rattle.pdcch_app.specs.Sweeping.{swept};

use par_sweep::{Gate, append_summary, sweep_of};
use run_steps::{Answer, Status, Stop};
use std::alloc::Global;
use std::thread::Threads;
use table_files::Tables;

/// The summary of so many slots, from the first on.
#[tactic(auto, unfolding(crate::specs::Sweeping::swept))]
pub fn sweep_text<R: Threads + Sync, G: Gate>(
    rt: &R,
    alloc: Global,
    gate: &G,
    tables: &Tables,
    slots: u32,
) -> Result<Answer, Stop>
    requires least { 1 ≤ slots }
    requires most { slots ≤ 200 }
    ensures { Ends result (ended (swept tables.now slots)) }
{
    let totals = sweep_of(rt, alloc, gate, tables, slots)?;
    let mut text = Vec::new(alloc);
    append_summary(alloc, totals.as_slice(), &mut text)?;
    Ok(Answer::new(Status::Done, text, Vec::new(alloc)))
}
