//! Why a file is not read, and the reading of its text.
ghost use Rattle.std.specs.Prelude.{◌≡◌, ◌⊎◌, IfErr, IfOk};
ghost use Rattle.rrc_settings.specs.declared.place.Reason.TheVariants as reasons;
ghost use Rattle.serde_json.specs.View.{view};
ghost use Rattle.json_form.specs.declared.error.JsonError.TheVariants.{Fault, NoMemory};
ghost use Rattle.json_form.specs.Texts.{IsJson, IsNoJson};

use rrc_settings::{FaultPlace, Reason};
use serde_json::{Category, Value};
use std::alloc::{AllocError, AllocFailed, Global};

/// A fault of a file, where and why.
pub trait FileFault {}

impl FileFault for rrc_settings::SettingsFault {}

/// Why a file is not read.
#[derive(Debug, Drop, PartialEq, Eq)]
pub enum JsonError<F> {
    /// The file is at fault: its first fault.
    Fault(F),
    /// There is not enough memory.
    NoMemory,
}

impl<F: FileFault> From<F> for JsonError<F> {
    ghost use Rattle.std.specs.Prelude.{◌≡◌};
    ghost use Rattle.json_form.specs.declared.error.JsonError.TheVariants.{Fault};

    ghost from_gives = { λ fault e. e ≡ Fault fault };

    fn from(fault: F) -> JsonError<F> {
        JsonError::Fault(fault)
    }
}

impl<F> From<AllocError> for JsonError<F> {
    ghost use Rattle.std.specs.Prelude.{◌≡◌};
    ghost use Rattle.json_form.specs.declared.error.JsonError.TheVariants.{NoMemory};

    ghost from_gives = { λ _ e. e ≡ NoMemory };

    fn from(_error: AllocError) -> JsonError<F> {
        JsonError::NoMemory
    }
}

impl<F, T: Drop> From<AllocFailed<T>> for JsonError<F> {
    ghost use Rattle.std.specs.Prelude.{◌≡◌};
    ghost use Rattle.json_form.specs.declared.error.JsonError.TheVariants.{NoMemory};

    ghost from_gives = { λ _ e. e ≡ NoMemory };

    fn from(_error: AllocFailed<T>) -> JsonError<F> {
        JsonError::NoMemory
    }
}

/// The reading of a JSON text, whose whole stands at this place.
pub fn value_of<P: FaultPlace>(
    alloc: Global,
    whole: &P,
    bytes: &[u8],
) -> Result<Value, JsonError<P::Fault>>
    ensures json { IfOk result (λ value. IsJson bytes.now (view value)) }
    ensures no_json { IfErr result (λ e. (e ≡ NoMemory)
        ⊎ ((e ≡ Fault (P.names.fault whole.now reasons.NotJson)) × IsNoJson bytes.now)) }
{
    let Ok(text) = std::str::from_utf8(bytes) else {
        return Err(JsonError::Fault(whole.fault(Reason::NotJson)));
    };
    match Value::from_str(alloc, text) {
        Ok(value) => Ok(value),
        Err(error) if error.classify() == Category::Memory => Err(JsonError::NoMemory),
        Err(_) => Err(JsonError::Fault(whole.fault(Reason::NotJson))),
    }
}
