//! Where the candidates of a search space set start (3GPP TS 38.213, 10.1).
ghost use Rattle.std.specs.Prelude.{◌≡◌, ◌+◌, ◌<◌, ◌≤◌};
ghost use Rattle.search_starts.specs.Starts.{start_of};

/// The first CCE of candidate `candidate` of `count` candidates of `level` CCEs, in a CORESET of `cces` CCEs.
///
/// `y` is the base of the set's places. `level` is at least 1 and at most `cces`, and `candidate` is below `count`.
pub fn start_cce(y: u32, level: u16, candidate: u16, count: u16, cces: u16) -> u16
    requires level { 1 ≤ level }
    requires cces { level ≤ cces }
    requires candidate { candidate < count }
    ensures value { result ≡ start_of y level candidate count cces }
    ensures inside { result + level ≤ cces }
{
    let level = u64::from(level);
    let cces = u64::from(cces);
    let step = u64::from(candidate) * cces / (level * u64::from(count));
    (level * ((u64::from(y) + step) % (cces / level))) as u16
}
