//! Marks of CCEs, and how many there are.
ghost use Rattle.std.specs.Prelude.{◌≡◌, ◌≢◌, ℕ, ◌+◌, ◌<◌, ◌≤◌, true, false, replicate, length, slice_index_or};
ghost use Rattle.std.specs.Prelude.{slice_set, count_by};
ghost use Rattle.monitor_budget.specs.Counts.{Cce, cces_from};
ghost use Rattle.monitor_budget.specs.Tally.{mark_count, mark_of, marks_each, AddsCces};

use bits_core::BitRow;
use std::marker::Model;

/// How many CCEs of a CORESET have marks: as many as a CORESET has at most.
const EACH: usize = 192;

/// How many marks there are: for each number of a CORESET, 0 to 11, and each of 14 symbols.
const MARKS: usize = 12 * 14 * EACH;

/// How many words of 64 marks.
const WORDS: usize = MARKS / 64;

/// A mark for each CCE that may count, seen as the list of them: a bit each, and how many are set.
#[derive(Drop)]
pub(crate) struct Marks {
    marks: BitRow<WORDS>,
    count: u16,
}

impl Model for Marks {
    ghost use Rattle.std.specs.Prelude.{◌≡◌, List, Bool, count_by, length};
    ghost use Rattle.monitor_budget.specs.declared.marks.TheConstants.{MARKS};

    ghost Value = { List Bool };

    ghost view = { λ m. m.marks };

    ghost invariant = { λ m. (m.count ≡ count_by (λ b. b) m.marks) × (length m.marks ≡ MARKS) };
}

impl Marks {
    /// No mark is set.
    pub fn new() -> Marks
        ensures { result ≡ replicate mark_count false }
    {
        Marks {
            marks: BitRow::of_words([0; WORDS], MARKS),
            count: 0,
        }
    }

    /// How many marks are set.
    pub fn count(&self) -> u16
        ensures value { result ≡ count_by (λ b. b) self.now }
        ensures size { length self.now ≡ mark_count }
    {
        self.count
    }

    /// Sets a mark.
    pub fn set(&mut self, at: usize)
        requires { at < mark_count }
        ensures marks { self.new ≡ slice_set self.old at true }
        ensures there { slice_index_or self.new at false ≡ true }
        ensures others { (i : ℕ) → i ≢ at → slice_index_or self.new i false ≡ slice_index_or self.old i false }
    {
        if !self.marks.get(at) {
            self.marks.set(at, true);
            self.count += 1;
        }
    }

    /// Marks the CCEs of a candidate that begins at a symbol, of a CORESET.
    pub fn set_all(&mut self, coreset: u16, symbol: u8, start: u16, level: u8)
        requires coreset { coreset ≤ 11 }
        requires symbol { symbol < 14 }
        requires cces { start + level ≤ marks_each }
        ensures { AddsCces self.old self.new (cces_from coreset symbol start level) }
    {
        for cce in start..start + u16::from(level) {
            self.set(mark_of(coreset, symbol, cce));
        }
    }
}

/// The place of a CCE's mark.
fn mark_of(coreset: u16, symbol: u8, cce: u16) -> usize
    requires coreset { coreset ≤ 11 }
    requires symbol { symbol < 14 }
    requires cce { cce < marks_each }
    ensures value { result ≡ mark_of coreset symbol cce }
    ensures below { result < mark_count }
{
    (usize::from(coreset) * 14 + usize::from(symbol)) * EACH + usize::from(cce)
}
