//! What is told of a refusal.
ghost use Rattle.std.specs.Prelude.{◌≡◌};
ghost use Rattle.nrpdcch_c.specs.Faults.{fault_by, fault_left, fault_of, field_fault, reason_number, settings_fault, step_of};
ghost use Rattle.nrpdcch_c.specs.Faults.{steps_of, table_fault};

use crate::numbers::key_number;
use crate::stop::Stop;
use dci_fields::FieldFault;
use rrc_settings::{Place, Reason, SettingsFault, Step};
use table_files::TableFault;

/// One step from a JSON value to a value in it.
#[repr(C)]
#[derive(Clone, Copy)]
pub struct NrpdcchStep {
    /// The number of the key, or that of the element.
    pub value: u32,
    /// Whether it leads to an element of a list.
    pub element: bool,
}

/// What is told of a refusal: numbers that it doesn't need are 0.
#[repr(C)]
#[derive(Clone, Copy)]
pub struct NrpdcchFault {
    /// Which table is refused.
    pub part: u32,
    /// Why.
    pub reason: u32,
    /// The number that is at fault, or that of the bits of a field.
    pub value: u32,
    /// How many steps there are.
    pub count: u32,
    /// The place.
    pub at: usize,
    /// The way to the place in the settings.
    pub steps: [NrpdcchStep; 6],
}

/// No step.
const NO_STEP: NrpdcchStep = NrpdcchStep {
    value: 0,
    element: false,
};

/// A fault with no steps.
fn fault_by(part: u32, reason: u32, value: u32, at: usize) -> NrpdcchFault
    ensures { result ≡ fault_by part reason value at }
{
    NrpdcchFault {
        part,
        reason,
        value,
        count: 0,
        at,
        steps: [NO_STEP; 6],
    }
}

/// The number of a reason.
fn reason_number(reason: Reason) -> u32
    ensures { result ≡ reason_number reason }
{
    match reason {
        Reason::NotJson => 1,
        Reason::Missing => 2,
        Reason::Unknown => 3,
        Reason::WrongKind => 4,
        Reason::OutOfRange => 5,
        Reason::Conflict => 6,
    }
}

/// A step as C has it.
fn step_of(step: Step) -> NrpdcchStep
    ensures { result ≡ step_of step }
{
    match step {
        Step::Key(key) => NrpdcchStep {
            value: key_number(key),
            element: false,
        },
        Step::Index(index) => NrpdcchStep {
            value: u32::from(index),
            element: true,
        },
    }
}

/// The way to a place as C has it.
#[tactic(auto, using(crate::proofs::Overlays::overlaid_next, crate::proofs::Overlays::overlaid_whole))]
fn steps_of(place: &Place) -> [NrpdcchStep; 6]
    ensures { result ≡ steps_of place.now.steps.items }
{
    let mut steps = [NO_STEP; 6];
    for (index, step) in place.steps.as_slice().iter().enumerate() {
        steps[index] = step_of(*step);
    }
    steps
}

/// A fault of the settings as C has it.
fn settings_fault(fault: &SettingsFault) -> NrpdcchFault
    ensures { result ≡ settings_fault fault.now }
{
    NrpdcchFault {
        part: 0,
        reason: reason_number(fault.reason),
        value: 0,
        count: fault.place.steps.len() as u32,
        at: 0,
        steps: steps_of(&fault.place),
    }
}

/// A fault of a table as C has it.
fn table_fault(part: u32, fault: TableFault) -> NrpdcchFault
    ensures { result ≡ table_fault part fault }
{
    match fault {
        TableFault::BadByte { at } => fault_by(part, 1, 0, at),
        TableFault::TooLarge { at, value } => fault_by(part, 2, u32::from(value), at),
        TableFault::Repeated { value } => fault_by(part, 3, u32::from(value), 0),
        TableFault::Count { found } => fault_by(part, 4, u32::from(found), 0),
    }
}

/// A fault of field values as C has it.
fn field_fault(fault: FieldFault) -> NrpdcchFault
    ensures { result ≡ field_fault fault }
{
    match fault {
        FieldFault::Unknown { at } => fault_by(0, 1, 0, at),
        FieldFault::TooLarge { at, width } => fault_by(0, 2, width, at),
        FieldFault::AllOnes => fault_by(0, 3, 0, 0),
    }
}

/// What is told of a refusal.
fn fault_of(stop: &Stop) -> NrpdcchFault
    ensures { result ≡ fault_of stop.now }
{
    match stop {
        Stop::Settings(fault) => settings_fault(fault),
        Stop::Reliability(fault) => table_fault(1, *fault),
        Stop::InputOrder(fault) => table_fault(2, *fault),
        Stop::Field(fault) => field_fault(*fault),
        Stop::GridByte { at } => fault_by(0, 0, 0, *at),
        Stop::Small { needed } => fault_by(0, 0, 0, *needed),
        Stop::GridText { at } => fault_by(0, 0, 0, *at),
        _ => fault_by(0, 0, 0, 0),
    }
}

/// Tells of a refusal, where there is one.
pub(crate) fn put_fault<T>(answer: &Result<T, Stop>, fault: &mut NrpdcchFault)
    ensures { fault.new ≡ fault_left answer.now fault.old }
{
    if let Err(stop) = answer {
        *fault = fault_of(stop);
    }
}
