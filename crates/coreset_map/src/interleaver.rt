//! How bundles of REGs are interleaved (3GPP TS 38.211, 7.3.2.2).
ghost use Rattle.std.specs.Prelude.{◌≡◌, ◌/◌, ◌<◌, Some};
ghost use Rattle.coreset_map.specs.ControlResources.{bundle_size, interleaved, IsInterleaver, GoesWith};

/// An interleaver of bundles of REGs, with its shift.
#[derive(Clone, Copy, Debug, PartialEq, Eq)]
pub struct Interleaver {
    /// REGs in a bundle.
    pub bundle: u16,
    /// Rows.
    pub rows: u16,
    /// The shift.
    pub shift: u16,
}

/// How many REGs a bundle has.
pub(crate) fn bundle_size(interleaver: Option<Interleaver>) -> u16
    ensures { result ≡ bundle_size interleaver }
{
    match interleaver {
        Some(interleaver) => interleaver.bundle,
        None => 6,
    }
}

/// The bundle that comes at a place, of a set of `count` REGs.
#[tactic(auto, unfolding(crate::specs::ControlResources::interleaved))]
pub(crate) fn bundle_at(interleaver: Option<Interleaver>, place: u16, count: u16) -> u16
    requires set { GoesWith count interleaver }
    requires place { place < count / bundle_size interleaver }
    ensures { result ≡ interleaved interleaver count place }
{
    match interleaver {
        Some(interleaver) => interleaver.bundle_at(place, count),
        None => place,
    }
}

impl Interleaver {
    /// The bundle that comes at a place, of a set of `count` REGs.
    fn bundle_at(&self, place: u16, count: u16) -> u16
        requires set { IsInterleaver count self.now }
        requires place { place < count / self.now.bundle }
        ensures { result ≡ interleaved (Some self.now) count place }
    {
        let bundles = u32::from(count / self.bundle);
        let columns = u32::from(count / (self.bundle * self.rows));
        let turned = u32::from(place % self.rows) * columns + u32::from(place / self.rows);
        ((turned + u32::from(self.shift)) % bundles) as u16
    }
}
