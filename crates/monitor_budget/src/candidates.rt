//! The candidates of a search space set in a slot (3GPP TS 38.213, 10.1).
ghost use Rattle.std.specs.Prelude.{◌≡◌, ℕ, ◌+◌, ◌*◌, ◌<◌, ◌≤◌, ◌++◌, map, length, slice_index};
ghost use Rattle.monitor_budget.specs.SetCandidates.{AreAsked, level_candidates, set_candidates, sized, symbol_candidates};

use arrayvec::ArrayVec;
use rrc_settings::{LEVELS, SearchSet, has_bit};
use search_starts::start_cce;

/// A candidate of a search space set in a slot.
#[derive(Clone, Copy, Debug, Default, PartialEq, Eq)]
pub struct Candidate {
    /// The symbol at which it begins.
    pub symbol: u8,
    /// The aggregation level: how many CCEs it has.
    pub level: u8,
    /// Its number among those of its level.
    pub candidate: u8,
    /// Its first CCE.
    pub start: u16,
    /// The size of its payload.
    pub size: u16,
}

/// Appends the candidates of a set.
pub(crate) fn push_set(
    out: &mut ArrayVec<Candidate, 1120>,
    cces: u16,
    sizes: &[u16],
    set: &SearchSet,
)
    requires empty { length out.old.items ≡ 0 }
    requires sizes { length sizes.now ≤ 2 }
    requires asked { AreAsked cces set.now.candidates }
    ensures items { out.new.items ≡ out.old.items ++ set_candidates cces sizes.now set.now }
    ensures few { length out.new.items ≤ 1120 }
{
    for symbol in 0..14u8 {
        if has_bit(u64::from(set.symbols), u32::from(symbol)) {
            push_symbol(out, cces, sizes, set, symbol);
        }
    }
}

/// Appends the candidates of a set that begin at a symbol.
pub(crate) fn push_symbol<const N: usize>(
    out: &mut ArrayVec<Candidate, N>,
    cces: u16,
    sizes: &[u16],
    set: &SearchSet,
    symbol: u8,
)
    requires room { length out.old.items + 80 ≤ N }
    requires sizes { length sizes.now ≤ 2 }
    requires asked { AreAsked cces set.now.candidates }
    ensures items { out.new.items ≡ out.old.items ++ symbol_candidates cces sizes.now set.now symbol }
    ensures few { length out.new.items ≤ length out.old.items + 80 }
{
    for i in 0..5 {
        push_level(out, cces, sizes, set, symbol, i);
    }
}

/// Appends the candidates of a set that begin at a symbol, at one level.
fn push_level<const N: usize>(
    out: &mut ArrayVec<Candidate, N>,
    cces: u16,
    sizes: &[u16],
    set: &SearchSet,
    symbol: u8,
    i: usize,
)
    requires level { i < 5 }
    requires room { length out.old.items + 16 ≤ N }
    requires sizes { length sizes.now ≤ 2 }
    requires asked { AreAsked cces set.now.candidates }
    ensures items { out.new.items ≡ out.old.items ++ level_candidates cces sizes.now set.now symbol i }
    ensures few { length out.new.items ≤ length out.old.items + 16 }
{
    let level = LEVELS[i];
    let count = set.candidates[i];
    for candidate in 0..count {
        let start = start_cce(
            u32::from(set.base),
            u16::from(level),
            candidate,
            count,
            cces,
        );
        let first = Candidate {
            symbol,
            level,
            candidate: candidate as u8,
            start,
            size: 0,
        };
        push_sizes(out, first, sizes);
    }
}

/// Appends a candidate at each size.
fn push_sizes<const N: usize>(out: &mut ArrayVec<Candidate, N>, candidate: Candidate, sizes: &[u16])
    requires { length out.old.items + length sizes.now ≤ N }
    ensures items { out.new.items ≡ out.old.items ++ map (sized candidate) sizes.now }
    ensures length { length out.new.items ≡ length out.old.items + length sizes.now }
{
    for size in sizes {
        out.push(Candidate {
            size: *size,
            ..candidate
        });
    }
}
