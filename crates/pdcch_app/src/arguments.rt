//! What each word after a command is for: an option, its value, or an argument of the command itself.
ghost use Rattle.std.specs.Prelude.{◌≡◌, ◌<◌, ◌+◌, ℕ, true, List, Some, None, [], ◌∷◌, length, IfSome, MatchOption, slice_get};
ghost use Rattle.std.specs.Char.{is_ascii_digit};
ghost use Rattle.std.specs.List.{list_all};
ghost use Rattle.pdcch_app.specs.Arguments.{flag_of, is_plain, are_plain, is_under, arguments_after, texts_under};
ghost use Rattle.pdcch_app.specs.Arguments.{is_number, number_of, is_formed, are_formed};

/// An option: the word after it is its value.
#[derive(Clone, Copy)]
pub(crate) enum Flag {
    /// The handset that is asked for.
    Handset,
    /// The watch that is asked for, by its number.
    Watch,
}

/// A word that names no option, with the option whose value it is.
#[derive(Clone, Copy)]
struct Argument<'a> {
    flag: Option<Flag>,
    text: &'a str,
}

fn flag_of(word: &[u8]) -> Option<Flag>
    ensures { result ≡ flag_of word.now }
{
    if word == b"--handset".as_slice() {
        Some(Flag::Handset)
    } else if word == b"--watch".as_slice() {
        Some(Flag::Watch)
    } else {
        None
    }
}

fn is_plain(word: &[u8]) -> bool
    ensures { result ≡ is_plain word.now }
{
    match word {
        [] => false,
        [first, ..] => *first != b'-',
    }
}

/// The first argument of the words after a command, and the words after it.
fn split_first(words: &[String]) -> Option<(Argument<'_>, &[String])>
    ensures arguments { MatchOption result (arguments_after None words.now ≡ [])
        (λ parts. arguments_after None words.now ≡ record { flag = parts.0.flag; text = parts.0.text.now }
        ∷ arguments_after None parts.1.now) }
    ensures shorter { IfSome result (λ parts. length parts.1.now < length words.now) }
{
    let [first, rest @ ..] = words else {
        return None;
    };
    match flag_of(first.as_bytes()) {
        None => {
            let argument = Argument {
                flag: None,
                text: first.as_str(),
            };
            Some((argument, rest))
        }
        Some(flag) => Some(split_value(flag, rest)),
    }
}

/// The value of an option, which is the first of these words, and the words after it.
fn split_value(flag: Flag, words: &[String]) -> (Argument<'_>, &[String])
    ensures arguments { arguments_after (Some flag) words.now ≡ record { flag = result.0.flag; text = result.0.text.now }
        ∷ arguments_after None result.1.now }
    ensures shorter { length result.1.now < length words.now + 1 }
{
    match words {
        [] => (
            Argument {
                flag: Some(flag),
                text: "",
            },
            words,
        ),
        [value, rest @ ..] => (
            Argument {
                flag: Some(flag),
                text: value.as_str(),
            },
            rest,
        ),
    }
}

/// Whether an argument stands under this option, or under none.
fn is_under(wanted: Option<Flag>, flag: Option<Flag>) -> bool
    ensures { (text : List ℕ) → result ≡ is_under wanted (record { flag = flag; text = text }) }
{
    match (wanted, flag) {
        (None, None) => true,
        (Some(Flag::Handset), Some(Flag::Handset)) => true,
        (Some(Flag::Watch), Some(Flag::Watch)) => true,
        (Some(Flag::Handset), Some(Flag::Watch)) | (Some(Flag::Watch), Some(Flag::Handset)) =>
            false,
        (None, Some(_)) | (Some(_), None) => false,
    }
}

/// How many arguments stand under an option, or under none, in the words after a command.
pub(crate) fn count_under(wanted: Option<Flag>, words: &[String]) -> usize
    ensures { result ≡ length (texts_under wanted (arguments_after None words.now)) }
{
    let mut count = 0;
    let mut left = words;
    while let Some((argument, rest)) = split_first(left) {
        if is_under(wanted, argument.flag) {
            count += 1;
        }
        left = rest;
    }
    count
}

/// The text of one of these arguments, the first being at place 0.
pub(crate) fn text_under(wanted: Option<Flag>, words: &[String], place: usize) -> Option<&str>
    ensures { MatchOption result (slice_get (texts_under wanted (arguments_after None words.now)) place ≡ None)
        (λ text. slice_get (texts_under wanted (arguments_after None words.now)) place ≡ Some text.now) }
{
    let mut before = place;
    let mut left = words;
    while let Some((argument, rest)) = split_first(left) {
        if is_under(wanted, argument.flag) {
            if before == 0 {
                return Some(argument.text);
            }
            before -= 1;
        }
        left = rest;
    }
    None
}

/// Whether all arguments of the words after a command are plain.
pub(crate) fn are_plain(words: &[String]) -> bool
    ensures { result ≡ are_plain (arguments_after None words.now) }
{
    let mut left = words;
    while let Some((argument, rest)) = split_first(left) {
        if !is_plain(argument.text.as_bytes()) {
            return false;
        }
        left = rest;
    }
    true
}

/// Whether all bytes are decimal digits.
fn are_digits(bytes: &[u8]) -> bool
    ensures { result ≡ list_all is_ascii_digit bytes.now }
{
    for byte in bytes {
        if !byte.is_ascii_digit() {
            return false;
        }
    }
    true
}

/// Whether a text is one to nine decimal digits.
pub(crate) fn is_number(text: &str) -> bool
    ensures { result ≡ is_number text.now }
{
    1 <= text.len() && text.len() <= 9 && are_digits(text.as_bytes())
}

/// The number that one to nine decimal digits write.
pub(crate) fn number_of(text: &str) -> u32
    requires { is_number text.now ≡ true }
    ensures { result ≡ number_of text.now }
{
    match text.parse() {
        Ok(number) => number,
        Err(_) => unreachable!(),
    }
}

/// Whether an argument is written in the form that its option asks for.
fn is_formed(flag: Option<Flag>, text: &str) -> bool
    ensures { result ≡ is_formed (record { flag = flag; text = text.now }) }
{
    match flag {
        None => true,
        Some(Flag::Handset) => true,
        Some(Flag::Watch) => is_number(text),
    }
}

/// Whether all arguments of the words after a command are written so.
pub(crate) fn are_formed(words: &[String]) -> bool
    ensures { result ≡ are_formed (arguments_after None words.now) }
{
    let mut left = words;
    while let Some((argument, rest)) = split_first(left) {
        if !is_formed(argument.flag, argument.text) {
            return false;
        }
        left = rest;
    }
    true
}
