//! How many candidates and CCEs a handset looks at in a slot at most (3GPP TS 38.213, tables 10.1-2 and 10.1-3).
ghost use Rattle.std.specs.Prelude.{◌≡◌, ◌≤◌};
ghost use Rattle.monitor_budget.specs.Limits.{are_within};

use rrc_settings::Cell;

/// Candidates, by the numerology.
const MOST_CANDIDATES: [u16; 4] = [44, 36, 22, 20];

/// CCEs, by the numerology.
const MOST_CCES: [u16; 4] = [56, 56, 48, 32];

/// Whether both counts keep their limits.
fn are_within(mu: u16, candidates: u16, cces: u16) -> bool
    requires { mu ≤ 3 }
    ensures { result ≡ are_within mu candidates cces }
{
    candidates <= MOST_CANDIDATES[usize::from(mu)] && cces <= MOST_CCES[usize::from(mu)]
}

/// Whether both counts keep the limits of a cell.
pub(crate) fn keep_limits(cell: &Cell, candidates: u16, cces: u16) -> bool
    ensures { result ≡ are_within cell.now.mu candidates cces }
{
    are_within(cell.raw().mu, candidates, cces)
}
