//! Edits of a JSON text at a place: the text has no spaces, and its strings have no commas, brackets or escapes.
use std::alloc::{AllocError, Global};

/// Where the value that begins at a byte ends: before the next comma or closing bracket that is not inside it.
fn end_of(text: &[u8], start: usize) -> usize {
    let mut depth: usize = 0;
    for at in start..text.len() {
        let byte = text[at];
        let closes = byte == b'}' || byte == b']';
        if depth == 0 && (closes || byte == b',') {
            return at;
        }
        if closes {
            depth = depth.saturating_sub(1);
        } else if byte == b'{' || byte == b'[' {
            depth = depth.saturating_add(1);
        }
    }
    text.len()
}

/// Where the value of a key begins in the object that begins at a byte; the key stands with its quotes and its colon.
fn value_of(text: &[u8], start: usize, key: &[u8]) -> Option<usize> {
    let mut depth: usize = 0;
    for at in start..text.len() {
        let byte = text[at];
        if depth == 1 && text[at..].starts_with(key) {
            return at.checked_add(key.len());
        }
        if byte == b'}' || byte == b']' {
            if depth == 1 {
                return None;
            }
            depth = depth.saturating_sub(1);
        } else if byte == b'{' || byte == b'[' {
            depth = depth.saturating_add(1);
        }
    }
    None
}

/// Where an element begins in the list that begins at a byte.
fn element_of(text: &[u8], start: usize, number: usize) -> Option<usize> {
    let mut at = start.checked_add(1)?;
    for _ in 0..number {
        at = end_of(text, at).checked_add(1)?;
    }
    Some(at)
}

/// A key with its quotes and its colon.
fn quoted(alloc: Global, key: &str) -> Result<String, AllocError> {
    let mut word = String::from_str(alloc, "\"")?;
    word.push_str(key)?;
    word.push_str("\":")?;
    Ok(word)
}

/// Where the value of a place begins, its steps joined by `/`; that of the whole is empty.
fn found(alloc: Global, text: &[u8], place: &str) -> Result<Option<usize>, AllocError> {
    let mut at = Some(0);
    for step in place.split('/') {
        at = match (at, step) {
            (None, _) => None,
            (Some(start), "") => Some(start),
            (Some(start), "0") => element_of(text, start, 0),
            (Some(start), "1") => element_of(text, start, 1),
            (Some(start), "2") => element_of(text, start, 2),
            (Some(start), key) => value_of(text, start, quoted(alloc, key)?.as_bytes()),
        };
    }
    Ok(at)
}

/// The text with other bytes from one place on to before another.
fn spliced(
    alloc: Global,
    text: &[u8],
    start: usize,
    end: usize,
    new: &str,
) -> Result<Vec<u8>, AllocError> {
    let mut edited = Vec::from_slice(alloc, &text[..start.min(text.len())])?;
    edited.extend_from_slice(new.as_bytes())?;
    edited.extend_from_slice(&text[end.min(text.len())..])?;
    Ok(edited)
}

/// The text with a member at the front of an object.
pub fn with_member(
    alloc: Global,
    text: &[u8],
    object: &str,
    key: &str,
    value: &str,
) -> Result<Vec<u8>, AllocError> {
    let front = found(alloc, text, object)?.unwrap_or(0).saturating_add(1);
    let mut member = quoted(alloc, key)?;
    member.push_str(value)?;
    member.push(',')?;
    spliced(alloc, text, front, front, member.as_str())
}

/// The text with a member at the end of an object.
pub fn with_last_member(
    alloc: Global,
    text: &[u8],
    object: &str,
    key: &str,
    value: &str,
) -> Result<Vec<u8>, AllocError> {
    let start = found(alloc, text, object)?.unwrap_or(0);
    let end = end_of(text, start).saturating_sub(1);
    let mut member = String::from_str(alloc, ",")?;
    member.push_str(quoted(alloc, key)?.as_str())?;
    member.push_str(value)?;
    spliced(alloc, text, end, end, member.as_str())
}

/// The text with another value of a key of an object, or with the member where the object has not that key.
pub fn with_value(
    alloc: Global,
    text: &[u8],
    object: &str,
    key: &str,
    value: &str,
) -> Result<Vec<u8>, AllocError> {
    let start = found(alloc, text, object)?.unwrap_or(0);
    match value_of(text, start, quoted(alloc, key)?.as_bytes()) {
        Some(at) => spliced(alloc, text, at, end_of(text, at), value),
        None => with_member(alloc, text, object, key, value),
    }
}

/// The text without the member of a key, where the object has it: the comma behind it goes too, or else that before it.
pub fn without(
    alloc: Global,
    text: &[u8],
    object: &str,
    key: &str,
) -> Result<Option<Vec<u8>>, AllocError> {
    let start = found(alloc, text, object)?.unwrap_or(0);
    let word = quoted(alloc, key)?;
    let Some(value) = value_of(text, start, word.as_bytes()) else {
        return Ok(None);
    };
    let first = value.saturating_sub(word.len());
    let end = end_of(text, value);
    if text.get(end) == Some(&b',') {
        return Ok(Some(spliced(alloc, text, first, end.saturating_add(1), "")?));
    }
    Ok(Some(spliced(alloc, text, first.saturating_sub(1), end, "")?))
}
