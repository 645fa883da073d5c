//! The codes by two tables, each kept for the watches that come next.
ghost use Rattle.std.specs.Prelude.{◌≡◌, ◌↔◌, true, IsTrue, Some, is_some};
ghost use Rattle.monitor_plan.specs.Watch.{IsCarrying};
ghost use Rattle.table_files.specs.declared.tables.Tables.{Tables};
ghost use Rattle.dci_codec.specs.KnownCodes.{last_of, AreOf, IsAt, IsThereFor};

use crate::coding::code_at;
use dmrs_qpsk::References;
use monitor_plan::Watch;
use polar_chain::Code;
use table_files::Tables;

/// The codes of the two kinds of watch that came last: a set has two sizes at most, which take turns. It also keeps the
/// reference bits of each symbol of the slot.
#[derive(Debug, Drop)]
pub struct Codes {
    first: Option<Code>,
    second: Option<Code>,
    /// Whether the second is the last one.
    is_second_last: bool,
    pub(crate) references: References,
}

impl Codes {
    /// No code yet.
    pub fn new() -> Codes
        ensures { (tables : Tables) → AreOf tables result }
    {
        Codes {
            first: None,
            second: None,
            is_second_last: false,
            references: References::new(),
        }
    }

    /// Makes the code at a watch the last one: one of the two, or else a new one in place of the older.
    pub(crate) fn turn_to(&mut self, tables: &Tables, watch: &Watch)
        requires carrying { IsCarrying watch.now }
        requires known { AreOf tables.now self.old }
        ensures last { IsAt tables.now watch.now (last_of self.new) }
        ensures known { AreOf tables.now self.new }
    {
        if is_at(&self.first, watch) {
            self.is_second_last = false;
        } else if is_at(&self.second, watch) {
            self.is_second_last = true;
        } else if self.is_second_last {
            self.first = Some(code_at(tables, watch));
            self.is_second_last = false;
        } else {
            self.second = Some(code_at(tables, watch));
            self.is_second_last = true;
        }
    }

    /// The last code.
    pub(crate) fn last(&self) -> &Code
        requires { is_some (last_of self.now) ≡ true }
        ensures { last_of self.now ≡ Some result.now }
    {
        let last = if self.is_second_last {
            &self.second
        } else {
            &self.first
        };
        match last {
            Some(code) => code,
            None => unreachable!(),
        }
    }
}

/// Whether there is a code, and it is for the blocks at a watch.
fn is_at(code: &Option<Code>, watch: &Watch) -> bool
    requires { IsCarrying watch.now }
    ensures { IsTrue result ↔ IsThereFor watch.now code.now }
{
    match code {
        Some(code) => code.is_for(usize::from(watch.size) + 24, 108 * usize::from(watch.level)),
        None => false,
    }
}
