//! The format that a grant names.
ghost use Rattle.serde_json.specs.View.{view};
ghost use Rattle.json_form.specs.Kinds.{entry, judge_text, must, text_in};
ghost use Rattle.json_form.specs.Reads.{Reads};
ghost use Rattle.grant_file.specs.declared.place.GrantKey.TheVariants as keys;
ghost use Rattle.grant_file.specs.Faults.{names};
ghost use Rattle.grant_file.specs.Shapes.{is_format};
ghost use Rattle.grant_file.specs.Values.{format_of};

use crate::{GrantFault, GrantKey, GrantPlace};
use dci_fields::{Format, format_of};
use json_form::{required, text};
use rrc_settings::{FaultPlace, Reason};
use serde_json::Value;

/// The format, at its key.
#[tactic(auto, unfolding(rrc_settings::specs::Faults::unless, json_form::specs::Kinds::entry, json_form::specs::Kinds::judge_text))]
pub(crate) fn format_at(at: &GrantPlace, value: &Value) -> Result<Format, GrantFault>
    ensures { Reads (entry names at.now (view value.now) (must keys.Format (judge_text names is_format)))
        (format_of (text_in names keys.Format (view value.now))) result }
{
    let found = required(at, value, GrantKey::Format)?;
    let place = at.key(GrantKey::Format);
    match format_of(text(&place, found)?) {
        None => Err(place.fault(Reason::OutOfRange)),
        Some(format) => Ok(format),
    }
}
