//! Faults of settings in words.
use rrc_settings::{Place, Reason, SettingsFault, Step};
use std::alloc::{AllocError, Global};

/// The steps of a place, joined by `/`.
pub fn place_words(alloc: Global, place: &Place) -> Result<String, AllocError> {
    let mut words = String::new(alloc);
    for step in place.steps.as_slice() {
        if !words.is_empty() {
            words.push('/')?;
        }
        push_step(&mut words, step)?;
    }
    Ok(words)
}

/// Appends a key or an index.
fn push_step(words: &mut String, step: &Step) -> Result<(), AllocError> {
    match step {
        Step::Key(key) => words.push_str(key.text())?,
        Step::Index(index) => write!(words, "{index}")?,
    }
    Ok(())
}

/// What a reason is called.
pub fn reason_words(reason: Reason) -> &'static str {
    match reason {
        Reason::NotJson => "not json",
        Reason::Missing => "missing",
        Reason::Unknown => "unknown",
        Reason::WrongKind => "wrong kind",
        Reason::OutOfRange => "out of range",
        Reason::Conflict => "conflict",
    }
}

/// A fault's place and reason. The place of the whole is `file`.
pub fn words_of(alloc: Global, fault: &SettingsFault) -> Result<String, AllocError> {
    let mut words = place_words(alloc, &fault.place)?;
    if words.is_empty() {
        words.push_str("file")?;
    }
    words.push_str(": ")?;
    words.push_str(reason_words(fault.reason))?;
    Ok(words)
}
