//! The words of the command line.
ghost use Rattle.std.specs.Prelude.{◌≡◌, ◌≢◌, ◌<◌, ◌≤◌, Some, None, [], length, drop, IfSome, IfOk, IfErr, MatchOption};
ghost use Rattle.std.specs.Prelude.{MatchResult, slice_get};
ghost use Rattle.std.specs.Vec.Iter.{into_iter_items};
ghost use Rattle.std.specs.IoError.{error_kind};
ghost use Rattle.std.specs.declared.io.ErrorKind.TheVariants.{InvalidData};
ghost use Rattle.pdcch_app.specs.Arguments.{arguments, arguments_after, texts_under};
ghost use Rattle.pdcch_app.specs.Words.{legal, files, file, handset, value, slots, count_of, command_of};
ghost use Rattle.pdcch_app.specs.Words.{numbers_before, use_of, allows, is_slots, are_slots};

use crate::arguments::{
    Flag, are_formed, are_plain, count_under, is_number, number_of, text_under,
};
use std::alloc::{AllocError, Global};
use std::env::Args;
use std::io;
use std::io::ErrorKind;

/// What a run is asked to do.
#[derive(Clone, Copy, Debug, PartialEq, Eq)]
pub enum Command {
    /// Writes the grid of one slot.
    Write,
    /// Reports what the handsets hear on a grid.
    Search,
    /// Tells what is heard at one watch, or why nothing is.
    Explain,
    /// Sums up the first slots of the generated load.
    Sweep,
}

/// How often a command takes an option.
#[derive(Clone, Copy)]
enum Use {
    Never,
    AtMostOnce,
    Once,
}

impl Command {
    /// How many files the command takes.
    pub fn count(&self) -> usize
        ensures { result ≡ count_of self.now }
    {
        match self {
            Command::Write => 4,
            Command::Search => 4,
            Command::Explain => 4,
            Command::Sweep => 2,
        }
    }

    /// How many numbers stand before the files.
    fn numbers_before(&self) -> usize
        ensures { result ≡ numbers_before self.now }
    {
        match self {
            Command::Write => 0,
            Command::Search => 0,
            Command::Explain => 0,
            Command::Sweep => 1,
        }
    }

    /// How often it takes an option.
    fn use_of(&self, flag: Flag) -> Use
        ensures { result ≡ use_of self.now flag }
    {
        match (self, flag) {
            (Command::Write, Flag::Handset) => Use::Never,
            (Command::Write, Flag::Watch) => Use::Never,
            (Command::Search, Flag::Handset) => Use::AtMostOnce,
            (Command::Search, Flag::Watch) => Use::Never,
            (Command::Explain, Flag::Handset) => Use::Once,
            (Command::Explain, Flag::Watch) => Use::Once,
            (Command::Sweep, Flag::Handset) => Use::Never,
            (Command::Sweep, Flag::Watch) => Use::Never,
        }
    }

    /// Whether an option stands among the words after the command as often as the command takes it.
    fn takes(&self, flag: Flag, words: &[String]) -> bool
        ensures { result ≡ allows (use_of self.now flag) (length (texts_under (Some flag) (arguments_after None words.now))) }
    {
        self.use_of(flag).allows(count_under(Some(flag), words))
    }

    /// Whether the numbers before the files are numbers of slots.
    fn takes_numbers(&self, words: &[String]) -> bool
        ensures { result ≡ are_slots self.now (arguments_after None words.now) }
    {
        match self {
            Command::Write => true,
            Command::Search => true,
            Command::Explain => true,
            Command::Sweep => starts_with_slots(words),
        }
    }
}

/// Whether the first argument under no option of the words after a command, where there is one, is a number of slots.
fn starts_with_slots(words: &[String]) -> bool
    ensures { result ≡ are_slots Command.Sweep (arguments_after None words.now) }
{
    match text_under(None, words, 0) {
        Some(text) => is_slots(text),
        None => true,
    }
}

/// Whether a text is a number of slots to sweep.
fn is_slots(text: &str) -> bool
    ensures { result ≡ is_slots text.now }
{
    if !is_number(text) {
        return false;
    }
    let number = number_of(text);
    1 <= number && number <= 200
}

impl Use {
    /// Whether an option may stand `count` times.
    fn allows(&self, count: usize) -> bool
        ensures { result ≡ allows self.now count }
    {
        match self {
            Use::Never => count == 0,
            Use::AtMostOnce => count <= 1,
            Use::Once => count == 1,
        }
    }
}

fn command_of(word: &[u8]) -> Option<Command>
    ensures { result ≡ command_of word.now }
{
    if word == b"write".as_slice() {
        Some(Command::Write)
    } else if word == b"search".as_slice() {
        Some(Command::Search)
    } else if word == b"explain".as_slice() {
        Some(Command::Explain)
    } else if word == b"sweep".as_slice() {
        Some(Command::Sweep)
    } else {
        None
    }
}

/// The command, where the words are legal: its name, then arguments for it.
pub fn legal(words: &[String]) -> Option<Command>
    ensures command { result ≡ legal words.now }
    ensures files { IfSome result (λ command. length (files command words.now) ≡ count_of command) }
{
    let [first, rest @ ..] = words else {
        return None;
    };
    let command = command_of(first.as_bytes())?;
    if are_plain(rest)
        && are_formed(rest)
        && count_under(None, rest) == command.numbers_before() + command.count()
        && command.takes(Flag::Handset, rest)
        && command.takes(Flag::Watch, rest)
        && command.takes_numbers(rest)
    {
        Some(command)
    } else {
        None
    }
}

/// The argument under no option at a place, the first being at place 0.
fn argument(words: &[String], place: usize) -> Option<&str>
    ensures { MatchOption result (slice_get (texts_under None (arguments words.now)) place ≡ None)
        (λ text. slice_get (texts_under None (arguments words.now)) place ≡ Some text.now) }
{
    let [_, rest @ ..] = words else {
        return None;
    };
    text_under(None, rest, place)
}

/// The word that names the file of a command at a place, the first file's being 0.
pub fn file(command: Command, words: &[String], place: u8) -> &str
    requires { place < length (files command words.now) }
    ensures { result.now ≡ file command words.now place }
{
    match argument(words, command.numbers_before() + usize::from(place)) {
        Some(word) => word,
        None => unreachable!(),
    }
}

/// The number of slots to sweep.
pub fn slots(words: &[String]) -> u32
    requires { legal words.now ≡ Some Command.Sweep }
    ensures slots { result ≡ slots words.now }
    ensures least { 1 ≤ result }
    ensures most { result ≤ 200 }
{
    match argument(words, 0) {
        Some(text) => number_of(text),
        None => unreachable!(),
    }
}

/// The value of `--handset`, where it stands.
pub fn handset(words: &[String]) -> Option<&str>
    ensures { MatchOption result (handset words.now ≡ None) (λ word. handset words.now ≡ Some word.now) }
{
    let [_, rest @ ..] = words else {
        return None;
    };
    text_under(Some(Flag::Handset), rest, 0)
}

/// The value of an option that stands.
pub fn value(words: &[String], flag: Flag) -> &str
    requires { 0 < length (texts_under (Some flag) (arguments words.now)) }
    ensures { result.now ≡ value words.now flag }
{
    let [_, rest @ ..] = words else {
        unreachable!();
    };
    match text_under(Some(flag), rest, 0) {
        Some(word) => word,
        None => unreachable!(),
    }
}

/// All that the system gives but the first, which is the program's name.
fn words_after_first(alloc: Global, all: Args) -> Result<Vec<String>, AllocError>
    ensures { IfOk result (λ words. words.items ≡ drop 1 (into_iter_items all)) }
{
    all.skip(1).collect(alloc)
}

/// The words of a run, of what the system gives: all after the program's name, and none where one of them is no text,
/// since a run on no words is refused as a faulty command line.
pub fn words_of(alloc: Global, given: io::Result<Args>) -> Result<Vec<String>, AllocError>
    ensures texts { IfOk given (λ all. IfOk result (λ words. words.items ≡ drop 1 (into_iter_items all))) }
    ensures no_text { IfErr given (λ error. MatchResult result (λ words. (words.items ≡ []) × (error_kind error ≡ InvalidData))
        (λ _. error_kind error ≢ InvalidData)) }
{
    match given {
        Ok(all) => words_after_first(alloc, all),
        Err(error) => match error.kind() {
            ErrorKind::InvalidData => Ok(Vec::new(alloc)),
            _ => Err(AllocError),
        },
    }
}
