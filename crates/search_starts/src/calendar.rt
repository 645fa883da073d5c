//! The slots in which a search space set is monitored (3GPP TS 38.213, 10.1).
ghost use Rattle.std.specs.Prelude.{◌≡◌, ◌*◌, ◌^◌, ◌<◌, ◌≤◌};
ghost use Rattle.search_starts.specs.Calendar.{is_monitored, slots_before};

use rrc_settings::SearchSet;

/// Whether the set is monitored in a slot of a frame: in the first slots of each of its periods, which begin at its offset.
///
/// `mu` is at most 3, `frame` at most 1,023 and `slot` below `10 * 2^mu`. The period of the set is at least 1 and its
/// offset below it.
pub fn is_monitored(set: &SearchSet, mu: u16, frame: u16, slot: u16) -> bool
    requires mu { mu ≤ 3 }
    requires frame { frame ≤ 1023 }
    requires slot { slot < 10 * 2 ^ mu }
    requires period { 1 ≤ set.now.period }
    requires offset { set.now.offset < set.now.period }
    ensures { result ≡ is_monitored set.now (slots_before mu frame slot) }
{
    let slots = u32::from(frame) * (10 << mu) + u32::from(slot);
    let period = u32::from(set.period);
    (slots + period - u32::from(set.offset)) % period < u32::from(set.duration)
}
