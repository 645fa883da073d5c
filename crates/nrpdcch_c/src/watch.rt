//! A watch as C has it.
ghost use Rattle.std.specs.Prelude.{◌≡◌};
ghost use Rattle.nrpdcch_c.specs.WatchNumbers.{watch_of};

use crate::numbers::kind_number;
use monitor_plan::Watch;

/// One place where a handset looks.
#[repr(C)]
#[derive(Clone, Copy)]
pub struct NrpdcchWatch {
    /// The number of the search space set.
    pub set: u32,
    /// The number of its kind.
    pub kind: u32,
    /// The symbol at which the candidate begins.
    pub symbol: u32,
    /// The aggregation level.
    pub level: u32,
    /// The number of the candidate at its level.
    pub candidate: u32,
    /// Bits of the payload.
    pub size: u32,
    /// The identity that masks the parity.
    pub rnti: u32,
    /// Whether it carries the uplink format of its kind.
    pub uplink: bool,
    /// Whether it carries the downlink formats of its kind.
    pub downlink: bool,
}

/// A watch as C has it.
pub(crate) fn watch_of(watch: &Watch) -> NrpdcchWatch
    ensures { result ≡ watch_of watch.now }
{
    NrpdcchWatch {
        set: u32::from(watch.set),
        kind: kind_number(watch.kind),
        symbol: u32::from(watch.symbol),
        level: u32::from(watch.level),
        candidate: u32::from(watch.candidate),
        size: u32::from(watch.size),
        rnti: u32::from(watch.rnti),
        uplink: watch.up.is_some(),
        downlink: watch.down.is_some(),
    }
}
