//! What the scrambling of a candidate begins with (3GPP TS 38.211, 7.3.2.3).
ghost use Rattle.std.specs.Prelude.{◌≡◌, ◌^◌, ◌<◌, length};
ghost use Rattle.monitor_budget.specs.Scrambling.{own_start, scrambling_start, sequence_start};

use rrc_settings::SetKind;

/// What the scrambling begins with in a set of a kind, for a handset of an identity `rnti` in a cell of a number, where the
/// CORESET has `id` for its reference signal.
pub fn scrambling_start(kind: SetKind, cell: u16, rnti: u16, id: Option<u16>) -> u32
    ensures value { result ≡ scrambling_start kind cell rnti id }
    ensures below { result < 2 ^ 31 }
{
    match kind {
        SetKind::Common => sequence_start(0, cell),
        SetKind::Fallback | SetKind::Specific => own_start(cell, rnti, id),
    }
}

/// The handset's own start where the CORESET has an identity of its reference signal, else the cell's.
fn own_start(cell: u16, rnti: u16, id: Option<u16>) -> u32
    ensures value { result ≡ own_start cell rnti id }
    ensures below { result < 2 ^ 31 }
{
    match id {
        Some(id) => sequence_start(rnti, id),
        None => sequence_start(0, cell),
    }
}

/// The start of the sequence from two identities.
fn sequence_start(r: u16, i: u16) -> u32
    ensures value { result ≡ sequence_start r i }
    ensures below { result < 2 ^ 31 }
{
    (u32::from(r) * 0x1_0000 + u32::from(i)) % 0x8000_0000
}
