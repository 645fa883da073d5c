//! Reading of a table's numbers from its text.
ghost use Rattle.std.specs.Prelude.{◌≡◌, ◌<◌, ◌≤◌, IfOk, IsTrue, OnOk, length, take};
ghost use Rattle.table_files.specs.Permutation.{IsPart, IsTable};
ghost use Rattle.table_files.specs.NumbersInArray.{all_found, digits_of, first_found, reading_found, reading_of, run_of};
ghost use Rattle.table_files.specs.SeenNumbers.{AreFlags};
ghost use Rattle.table_files.specs.TableText.{ended, is_digit, is_separator, longer, read_table, step};

use crate::TableFault;

/// The greatest value that a number keeps: a longer one is held there.
const MOST: u32 = 65_535;

/// How many numbers the longest table has.
const LONGEST: usize = 1024;

/// A run of digits that has not ended: the place of its first digit, and its value so far.
#[derive(Clone, Copy)]
struct Run {
    at: usize,
    value: u16,
}

/// How far a reading has come: how many numbers it found, and the run that has not ended.
#[derive(Clone, Copy)]
struct Progress {
    found: usize,
    run: Option<Run>,
}

/// Whether a byte is a decimal digit.
fn is_digit(byte: u8) -> bool
    ensures { result ≡ is_digit byte }
{
    b'0' <= byte && byte <= b'9'
}

/// Whether a byte may stand between numbers.
fn is_separator(byte: u8) -> bool
    ensures { result ≡ is_separator byte }
{
    matches!(byte, b' ' | b'\t' | b'\r' | b'\n' | b',')
}

/// The run with one more digit, which stands at place `at`.
fn longer(run: Option<Run>, at: usize, byte: u8) -> Run
    requires { IsTrue (is_digit byte) }
    ensures { digits_of result ≡ longer (run_of run) at byte }
{
    let digit = u32::from(byte - b'0');
    let (first, value) = match run {
        None => (at, 0),
        Some(run) => (run.at, u32::from(run.value)),
    };
    Run {
        at: first,
        value: (10 * value + digit).min(MOST) as u16,
    }
}

/// Ends a run: its number is judged and joins the `found` numbers before it, of which each has its flag in `seen` set.
/// Answers how many there are now.
#[tactic(auto, unfolding(crate::specs::TableText::judged))]
fn end_run(
    numbers: &mut [u16],
    seen: &mut [bool],
    found: usize,
    run: Option<Run>,
) -> Result<usize, TableFault>
    requires few { found ≤ length numbers.old }
    requires part { IsPart (length numbers.old) (take found numbers.old) }
    requires flags { AreFlags (length numbers.old) seen.old (take found numbers.old) }
    ensures read { first_found numbers.new result ≡ ended (length numbers.old) (take found numbers.old) (run_of run) }
    ensures few { IfOk result (λ found. found ≤ length numbers.new) }
    ensures part { IfOk result (λ found. IsPart (length numbers.new) (take found numbers.new)) }
    ensures flags { IfOk result (λ found. AreFlags (length numbers.new) seen.new (take found numbers.new)) }
{
    let Some(run) = run else {
        return Ok(found);
    };
    let value = usize::from(run.value);
    if value >= numbers.len() {
        return Err(TableFault::TooLarge {
            at: run.at,
            value: run.value,
        });
    }
    if seen[value] {
        return Err(TableFault::Repeated { value: run.value });
    }
    seen[value] = true;
    numbers[found] = run.value;
    Ok(found + 1)
}

/// Takes one byte, which stands at place `at`. The flags in `seen` are those of the numbers found so far.
#[tactic(auto, unfolding(crate::specs::TableText::step))]
fn take_byte(
    numbers: &mut [u16],
    seen: &mut [bool],
    progress: Progress,
    at: usize,
    byte: u8,
) -> Result<Progress, TableFault>
    requires few { progress.found ≤ length numbers.old }
    requires part { IsPart (length numbers.old) (take progress.found numbers.old) }
    requires flags { AreFlags (length numbers.old) seen.old (take progress.found numbers.old) }
    ensures read { reading_found numbers.new result ≡ step (length numbers.old) at byte (reading_of numbers.old progress) }
    ensures few { IfOk result (λ progress. progress.found ≤ length numbers.new) }
    ensures part { IfOk result (λ progress. IsPart (length numbers.new) (take progress.found numbers.new)) }
    ensures flags { IfOk result (λ progress. AreFlags (length numbers.new) seen.new (take progress.found numbers.new)) }
{
    if is_digit(byte) {
        let run = Some(longer(progress.run, at, byte));
        return Ok(Progress {
            found: progress.found,
            run,
        });
    }
    let found = end_run(numbers, seen, progress.found, progress.run)?;
    if !is_separator(byte) {
        return Err(TableFault::BadByte { at });
    }
    Ok(Progress { found, run: None })
}

/// Fills `numbers` with the numbers of a table's text.
#[tactic(auto, using(crate::proofs::Steps::read_step, crate::proofs::Steps::read_end, crate::proofs::Parts::found_table))]
pub(crate) fn read_numbers(bytes: &[u8], numbers: &mut [u16]) -> Result<(), TableFault>
    requires { length numbers.old ≤ 1024 }
    ensures read { all_found numbers.new result ≡ read_table (length numbers.old) bytes.now }
    ensures table { OnOk result (IsTable (length numbers.new) numbers.new) }
{
    let mut seen = [false; LONGEST];
    let mut progress = Progress {
        found: 0,
        run: None,
    };
    for (at, byte) in bytes.iter().enumerate() {
        progress = take_byte(numbers, &mut seen, progress, at, *byte)?;
    }
    let found = end_run(numbers, &mut seen, progress.found, progress.run)?;
    if found < numbers.len() {
        return Err(TableFault::Count {
            found: found as u16,
        });
    }
    Ok(())
}
