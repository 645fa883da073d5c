//! Where a list of grants is at fault, and why.
ghost use Rattle.std.specs.Prelude.{◌≡◌};
ghost use Rattle.grant_file.specs.Keys.{word_of};
ghost use Rattle.grant_file.specs.Faults.{whole_at};

use json_form::{FileFault, JsonError};
use rrc_settings::{FaultPlace, Reason};

/// A key of a list of grants or of a grant: one variant for each word, and one for the whole.
#[derive(Clone, Copy, Debug, PartialEq, Eq)]
pub enum GrantKey {
    /// The whole of what stands there, and no key of it.
    Whole,
    /// The number of the frame.
    Frame,
    /// The number of the slot in the frame.
    Slot,
    /// The list of the grants.
    Grants,
    /// The name of the handset.
    Handset,
    /// The number of the search space set.
    Set,
    /// The aggregation level.
    Level,
    /// The number of the candidate.
    Candidate,
    /// The first symbol.
    Symbol,
    /// The format.
    Format,
    /// The values of fields.
    Fields,
}

/// A place in a list of grants: of the list, or of one of its grants.
#[derive(Clone, Copy, Debug, PartialEq, Eq)]
pub struct GrantPlace {
    /// The grant, counted from 0; None where the place is in none.
    pub grant: Option<u16>,
    /// The key of the list or of the grant.
    pub key: GrantKey,
}

/// A fault of a list of grants: where, and why.
#[derive(Clone, Copy, Debug, PartialEq, Eq)]
pub struct GrantFault {
    /// The place of the value that is at fault.
    pub place: GrantPlace,
    /// Why it is at fault.
    pub reason: Reason,
}

impl GrantKey {
    /// The key's word; the whole has none, and gives the empty one.
    pub fn text(&self) -> &'static str
        ensures { result.now ≡ word_of self.now }
    {
        match self {
            GrantKey::Whole => "",
            GrantKey::Frame => "frame",
            GrantKey::Slot => "slot",
            GrantKey::Grants => "grants",
            GrantKey::Handset => "handset",
            GrantKey::Set => "set",
            GrantKey::Level => "level",
            GrantKey::Candidate => "candidate",
            GrantKey::Symbol => "symbol",
            GrantKey::Format => "format",
            GrantKey::Fields => "fields",
        }
    }

    /// The bytes of the key's word.
    pub fn word(&self) -> &[u8]
        ensures { result.now ≡ word_of self.now }
    {
        self.text().as_bytes()
    }
}

/// The whole of the list, or of one of its grants.
pub(crate) fn whole_at(grant: Option<u16>) -> GrantPlace
    ensures { result ≡ whole_at grant }
{
    GrantPlace {
        grant,
        key: GrantKey::Whole,
    }
}

impl FaultPlace for GrantPlace {
    ghost use Rattle.grant_file.specs.Faults.{names};

    type Key = GrantKey;

    type Fault = GrantFault;

    ghost names = { names };

    ghost has_room = { λ _. Unit {0} };

    fn text(key: GrantKey) -> &'static str {
        key.text()
    }

    fn key(&self, key: GrantKey) -> GrantPlace {
        GrantPlace {
            grant: self.grant,
            key,
        }
    }

    fn index(&self, index: usize) -> GrantPlace {
        whole_at(Some(index as u16))
    }

    fn fault(&self, reason: Reason) -> GrantFault {
        GrantFault {
            place: *self,
            reason,
        }
    }
}

impl FileFault for GrantFault {}

/// Why a list of grants is not read.
pub type GrantsError = JsonError<GrantFault>;
