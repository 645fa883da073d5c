//! Where settings are at fault, and why.
ghost use Rattle.std.specs.Prelude.{◌≡◌, ◌+◌, ◌^◌, ◌<◌, ◌≤◌, ◌∷◌, ◌++◌, [], length};
ghost use Rattle.rrc_settings.specs.Faults.{◌▸◌, element, fault_at};
ghost use Rattle.rrc_settings.specs.Naming.{Naming};

use crate::Key;
use arrayvec::ArrayVec;

/// One step from a value of the settings to a value in it.
#[derive(Clone, Copy, Debug, PartialEq, Eq)]
pub enum Step {
    /// To the value of a key.
    Key(Key),
    /// To an element of a list, counted from 0.
    Index(u16),
}

impl Default for Step {
    ghost use Rattle.std.specs.Prelude.{◌≡◌};
    ghost use Rattle.rrc_settings.specs.declared.place.Step.TheVariants as steps;

    ghost is_default = { λ step. step ≡ steps.Index 0 };

    fn default() -> Step {
        Step::Index(0)
    }
}

/// The steps from the whole of the settings to a value in it.
#[derive(Debug, Drop, PartialEq, Eq)]
pub struct Place {
    /// The steps, outermost first.
    pub steps: ArrayVec<Step, 6>,
}

/// Why a value is at fault.
#[derive(Clone, Copy, Debug, PartialEq, Eq)]
pub enum Reason {
    /// The text has no reading as JSON.
    NotJson,
    /// A key that has to be there is absent.
    Missing,
    /// An object has a key that it may not have.
    Unknown,
    /// A value is of another kind than its key's.
    WrongKind,
    /// A value is out of its range.
    OutOfRange,
    /// A value contradicts another one.
    Conflict,
}

/// A fault of the settings: where, and why.
#[derive(Debug, Drop, PartialEq, Eq)]
pub struct SettingsFault {
    /// The place of the value that is at fault.
    pub place: Place,
    /// Why it is at fault.
    pub reason: Reason,
}

impl Place {
    /// The place of the whole.
    pub fn top() -> Place
        ensures { result.steps.items ≡ [] }
    {
        Place {
            steps: ArrayVec::new(),
        }
    }

    /// The place of the value of `key` in the object that stands at this place.
    pub fn key(&self, key: Key) -> Place
        requires { length self.now.steps.items ≤ 5 }
        ensures { result.steps.items ≡ self.now.steps.items ▸ key }
    {
        self.then(Step::Key(key))
    }

    /// The place of an element of the list that stands at this place.
    pub fn index(&self, index: usize) -> Place
        requires room { length self.now.steps.items ≤ 5 }
        requires index { index < 2 ^ 16 }
        ensures { result.steps.items ≡ element self.now.steps.items index }
    {
        self.then(Step::Index(index as u16))
    }

    /// The fault of the value that stands at this place.
    pub fn fault(self, reason: Reason) -> SettingsFault
        ensures { result ≡ fault_at self.steps.items reason }
    {
        SettingsFault {
            place: self,
            reason,
        }
    }

    /// The same steps.
    fn copy(&self) -> Place
        ensures { result ≡ self.now }
    {
        let mut steps = ArrayVec::new();
        for step in self.steps.as_slice() {
            steps.push(*step);
        }
        Place { steps }
    }

    /// The place one step further.
    fn then(&self, step: Step) -> Place
        requires { length self.now.steps.items ≤ 5 }
        ensures { result.steps.items ≡ self.now.steps.items ++ step ∷ [] }
    {
        let mut place = self.copy();
        place.steps.push(step);
        place
    }
}

/// A place in a JSON file: the words of the file's keys, what stands below a place at keys and elements, and how a fault
/// there is named.
pub trait FaultPlace: Drop {
    /// The file's keys.
    type Key: Copy;
    /// The file's faults.
    type Fault;

    ghost names: { Naming Self.Key Self Self.Fault };

    ghost has_room: { Self → Type 0 };

    /// The word of a key.
    fn text(key: Self::Key) -> &'static str
        ensures { result.now ≡ names.word key };

    /// The place of the value of a key in the object here.
    fn key(&self, key: Self::Key) -> Self
        requires { has_room self.now }
        ensures { result ≡ names.below self.now key };

    /// The place of an element of the list here.
    fn index(&self, index: usize) -> Self
        requires room { has_room self.now }
        requires index { index < 2 ^ 16 }
        ensures { result ≡ names.element self.now index };

    /// The fault of the value here.
    fn fault(&self, reason: Reason) -> Self::Fault
        ensures { result ≡ names.fault self.now reason };
}

impl FaultPlace for Place {
    ghost use Rattle.std.specs.Prelude.{◌≤◌, length};
    ghost use Rattle.rrc_settings.specs.Naming.{names};

    type Key = Key;

    type Fault = SettingsFault;

    ghost names = { names };

    ghost has_room = { λ at. length at.steps.items ≤ 5 };

    fn text(key: Key) -> &'static str {
        key.text()
    }

    fn key(&self, key: Key) -> Place {
        self.then(Step::Key(key))
    }

    fn index(&self, index: usize) -> Place {
        self.then(Step::Index(index as u16))
    }

    fn fault(&self, reason: Reason) -> SettingsFault {
        self.copy().fault(reason)
    }
}
