//! A handset that searches grids by its plan.
ghost use Rattle.std.specs.Prelude.{◌≡◌, ◌<◌, ◌≤◌, [], ◌++◌, All, IfOk, length, vec_capacity};
ghost use Rattle.std.specs.Borrow.{sem};
ghost use Rattle.std.specs.Option.{option_to_list};
ghost use Rattle.monitor_plan.specs.Watch.{IsInside, IsSound};
ghost use Rattle.dci_codec.specs.KnownCodes.{AreOf};
ghost use Rattle.dci_codec.specs.TheSpelling.{heard_at};
ghost use Rattle.blind_search.specs.Report.{AreOfWatches, report_of};

use bits_core::NoMemory;
use dci_codec::{Codes, Heard, hear_with};
use monitor_plan::{Plan, Watch};
use slot_grid::Grid;
use std::alloc::Global;
use std::marker::Model;
use table_files::Tables;

/// A plan with room for what is heard at its watches, seen as the plan and the report of its last search.
#[derive(Debug, Drop)]
pub struct Searcher {
    plan: Plan,
    heard: Vec<Heard>,
}

impl Model for Searcher {
    ghost use Rattle.blind_search.specs.Searcher.{SearcherValue, IsSearcher};

    ghost Value = { SearcherValue };

    ghost view = { λ s. record { plan = s.plan; found = s.heard.items } };

    ghost invariant = { λ s. IsSearcher s.plan s.heard };
}

impl Searcher {
    ghost use Rattle.blind_search.specs.Searched.{KeepsReport};

    /// A searcher of the plan, with room for an entry of each watch, that has found nothing yet. Where there is no memory, the
    /// plan is dropped.
    pub fn prepare(alloc: Global, plan: Plan) -> Result<Searcher, NoMemory>
        ensures { IfOk result (λ searcher. searcher ≡ record { plan = plan; found = [] }) }
    {
        match Vec::with_capacity(alloc, plan.watches().len()) {
            Ok(heard) => Ok(Searcher { plan, heard }),
            Err(_) => Err(NoMemory),
        }
    }

    /// What is heard on a grid over the watches of the plan, in their order. It takes no memory.
    pub fn search(&mut self, tables: &Tables, grid: &Grid) -> &[Heard]
        requires { All (IsInside grid.now.blocks) self.old.plan }
        ensures* kept { sem 𝓛 (KeepsReport self.entry result) }
        ensures report { result.now ≡ report_of tables.now grid.now self.old.plan }
        ensures within { AreOfWatches self.old.plan result.now }
    {
        let mut codes = Codes::new();
        self.search_with(&mut codes, tables, grid)
    }

    /// As `search`, with the codes that earlier searches by these tables have made: none is made again while it is kept.
    pub fn search_with(&mut self, codes: &mut Codes, tables: &Tables, grid: &Grid) -> &[Heard]
        requires inside { All (IsInside grid.now.blocks) self.old.plan }
        requires codes { AreOf tables.now codes.old }
        ensures* kept { sem 𝓛 (KeepsReport self.entry result) }
        ensures report { result.now ≡ report_of tables.now grid.now self.old.plan }
        ensures within { AreOfWatches self.old.plan result.now }
        ensures codes { AreOf tables.now codes.new }
    {
        self.heard.clear();
        push_heard(&mut self.heard, codes, tables, grid, self.plan.watches());
        self.found()
    }

    /// The report of the last search; no entry before the first.
    pub fn found(&self) -> &[Heard]
        ensures report { result.now ≡ self.now.found }
        ensures within { AreOfWatches self.now.plan self.now.found }
    {
        self.heard.as_slice()
    }

    /// The plan.
    pub fn plan(&self) -> &Plan
        ensures { result.now ≡ self.now.plan }
    {
        &self.plan
    }
}

/// Appends what is heard on a grid at each watch, in their order. `codes` are those that earlier watches needed.
fn push_heard(
    heard: &mut Vec<Heard>,
    codes: &mut Codes,
    tables: &Tables,
    grid: &Grid,
    watches: &[Watch],
)
    requires empty { heard.old.items ≡ [] }
    requires room { length watches.now ≤ vec_capacity heard.old }
    requires few { length watches.now ≤ 11200 }
    requires sound { All IsSound watches.now }
    requires inside { All (IsInside grid.now.blocks) watches.now }
    requires codes { AreOf tables.now codes.old }
    ensures report { heard.new.items ≡ report_of tables.now grid.now watches.now }
    ensures within { AreOfWatches watches.now heard.new.items }
    ensures room { vec_capacity heard.old ≤ vec_capacity heard.new }
    ensures codes { AreOf tables.now codes.new }
{
    for (number, watch) in watches.iter().enumerate() {
        push_heard_at(heard, codes, tables, grid, watch, number as u32);
    }
}

/// Appends what is heard on a grid at the watch of this number, where something is.
fn push_heard_at(
    heard: &mut Vec<Heard>,
    codes: &mut Codes,
    tables: &Tables,
    grid: &Grid,
    watch: &Watch,
    number: u32,
)
    requires room { length heard.old.items < vec_capacity heard.old }
    requires sound { IsSound watch.now }
    requires inside { IsInside grid.now.blocks watch.now }
    requires codes { AreOf tables.now codes.old }
    ensures entry { heard.new.items ≡ heard.old.items ++ option_to_list (heard_at tables.now grid.now watch.now number) }
    ensures room { vec_capacity heard.old ≤ vec_capacity heard.new }
    ensures codes { AreOf tables.now codes.new }
{
    if let Ok(entry) = hear_with(codes, tables, watch, number, grid) {
        match heard.push(entry) {
            Ok(()) => {}
            Err(_) => unreachable!(),
        }
    }
}
