//! Laws of the first fault, each the contract of a function that does nothing.
ghost use Rattle.settings_json.specs.NoJson.{NotJsonExactly, NotJsonOfTheWhole};

/// `NotJson` is the first fault exactly where the bytes are no UTF-8 or have no reading as JSON: no pass over a value
/// finds it.
pub fn not_json_exactly()
    ensures { NotJsonExactly }
{}

/// `NotJson` is never found at a place inside.
pub fn not_json_of_the_whole()
    ensures { NotJsonOfTheWhole }
{}
