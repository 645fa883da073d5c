//! Candidates and CCEs that are counted, each once.
ghost use Rattle.std.specs.Prelude.{◌≡◌, ◌+◌, ◌≤◌, [], ◌∷◌, true, false, replicate, map, length, count_by};
ghost use Rattle.std.specs.List.{flat_map};
ghost use Rattle.monitor_budget.specs.Counts.{cces_of_candidate, counted_as};
ghost use Rattle.monitor_budget.specs.Tally.{mark_count, AddsCces, AddsCounted, AreMarkable, FillsRoom};

use crate::Candidate;
use crate::counted::Counted;
use crate::marks::Marks;
use arrayvec::ArrayVec;
use rrc_settings::SearchSet;

/// The candidates that were counted, each once, with room for `N`, and the marks of their CCEs.
#[derive(Drop)]
pub(crate) struct Tally<const N: usize> {
    pub seen: ArrayVec<Counted, N>,
    pub marks: Marks,
}

impl<const N: usize> Tally<N> {
    /// Nothing is counted.
    pub fn new() -> Tally<N>
        ensures seen { result.seen.items ≡ [] }
        ensures marks { result.marks ≡ replicate mark_count false }
    {
        Tally {
            seen: ArrayVec::new(),
            marks: Marks::new(),
        }
    }

    /// How many candidates are counted.
    pub fn candidates(&self) -> u16
        requires { N ≤ 65535 }
        ensures { result ≡ length self.now.seen.items }
    {
        self.seen.len() as u16
    }

    /// How many CCEs are counted.
    pub fn cces(&self) -> u16
        ensures value { result ≡ count_by (λ b. b) self.now.marks }
        ensures size { length self.now.marks ≡ mark_count }
    {
        self.marks.count()
    }

    /// Counts the candidates of a set, and their CCEs: whether there was room for all. It ends at the first one that has none.
    pub fn add(&mut self, set: &SearchSet, scramble: u32, candidates: &[Candidate]) -> bool
        requires coreset { set.now.coreset ≤ 11 }
        requires markable { AreMarkable candidates.now }
        ensures counted { result ≡ true
            → AddsCounted self.old.seen.items self.new.seen.items (map (counted_as set.now scramble) candidates.now) }
        ensures cces { result ≡ true
            → AddsCces self.old.marks self.new.marks (flat_map (cces_of_candidate set.now) candidates.now) }
        ensures full { result ≡ false
            → FillsRoom N self.old.seen.items self.new.seen.items (map (counted_as set.now scramble) candidates.now) }
        ensures few { length self.new.seen.items ≤ length self.old.seen.items + length candidates.now }
        ensures fits { length self.old.seen.items + length candidates.now ≤ N → result ≡ true }
    {
        for candidate in candidates {
            if !see(&mut self.seen, counted_as(set, scramble, candidate)) {
                return false;
            }
            self.marks.set_all(
                set.coreset,
                candidate.symbol,
                candidate.start,
                candidate.level,
            );
        }
        true
    }
}

/// What a candidate counts as.
fn counted_as(set: &SearchSet, scramble: u32, candidate: &Candidate) -> Counted
    ensures { result ≡ counted_as set.now scramble candidate.now }
{
    Counted {
        coreset: set.coreset,
        symbol: candidate.symbol,
        start: candidate.start,
        level: candidate.level,
        scramble,
        size: candidate.size,
    }
}

/// Adds a candidate to those that were seen, where it is new: whether it was seen or there was room for it.
fn see<const N: usize>(seen: &mut ArrayVec<Counted, N>, counted: Counted) -> bool
    ensures counted { result ≡ true → AddsCounted seen.old.items seen.new.items (counted ∷ []) }
    ensures same { result ≡ false → seen.new.items ≡ seen.old.items }
    ensures full { result ≡ false → N ≤ length seen.old.items }
    ensures few { length seen.new.items ≤ length seen.old.items + 1 }
{
    if seen.as_slice().contains(&counted) {
        return true;
    }
    if seen.is_full() {
        return false;
    }
    seen.push(counted);
    true
}
