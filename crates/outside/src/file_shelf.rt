ghost use Rattle.std.specs.Prelude.{◌≡◌, ◌+◌, ◌<◌, ◌≤◌, ◌⊎◌, [], None, length, IfOk, IfSome, IsErr, OnOk, OnErr};
ghost use Rattle.std.specs.Result.{IsErrOf};
ghost use Rattle.outside.specs.Causes.{Fetches};
ghost use Rattle.outside.specs.Counted.{IsLater, counts_after};
ghost use Rattle.outside.specs.Lost.{LosesAtMost};

use crate::misses::Misses;
use crate::{FetchFault, Shelf};
use std::alloc::Global;
use std::fs;
use std::io::{self, Read};
use std::marker::Model;
use std::rt::Files;

/// How many bytes are asked for at once.
const PIECE: usize = 4096;

/// A shelf of the runtime's files. It doesn't tell what they hold.
#[derive(Drop)]
pub struct FileShelf<'a, R> {
    rt: &'a R,
    misses: Misses,
}

impl<'a, R> Model for FileShelf<'a, R> {
    ghost use Rattle.outside.specs.Counts.{Counts};

    ghost Value = { Counts };

    ghost view = { λ s. s.misses };
}

impl<'a, R: Files> FileShelf<'a, R> {
    /// A shelf of the runtime's files, by their paths. A file that is missing or can't be read is a fault.
    pub fn new(rt: &'a R) -> FileShelf<'a, R>
        ensures { result ≡ record { faults = 0; longs = 0; missed = [] } }
    {
        FileShelf {
            rt,
            misses: Misses::new(),
        }
    }
}

impl<'a, R: Files> Shelf for FileShelf<'a, R> {
    ghost shows = { λ s. record { told = λ _. None; faults = s.faults; longs = s.longs; missed = s.missed } };

    ghost may = { λ _ _. Unit {0} };

    fn fetch(
        &mut self,
        alloc: Global,
        name: &str,
        limit: usize,
        into: &mut Vec<u8>,
    ) -> Result<(), FetchFault>
        ensures fetched { Fetches
            (record { told = λ _. None; faults = self.old.faults; longs = self.old.longs; missed = self.old.missed })
            (record { told = λ _. None; faults = self.new.faults; longs = self.new.longs; missed = self.new.missed })
            name.now limit into.new.items result }
        ensures counted { self.new ≡ counts_after self.old name.now result }
    {
        let mut opened = fs::open(self.rt, name);
        fetch_opened(&mut opened, &mut self.misses, alloc, name, limit, into)
    }
}

/// Fetches what was opened under this name, and counts and notes it where it failed or is too long.
fn fetch_opened<F: Read>(
    opened: &mut io::Result<F>,
    misses: &mut Misses,
    alloc: Global,
    name: &str,
    limit: usize,
    into: &mut Vec<u8>,
) -> Result<(), FetchFault>
    ensures counted { misses.new ≡ counts_after misses.old name.now result }
    ensures later { IsLater misses.old misses.new }
    ensures fits { OnOk result (length into.new.items ≤ limit) }
    ensures unopened { IsErr opened.old → IsErrOf result FetchFault.Failed ⊎ IsErrOf result FetchFault.NoMemory }
    ensures emptied { OnErr result (into.new.items ≡ []) }

    // Where the opened file tells what it has, these are the bytes, and `TooLong` comes only where there are more.
    ensures whole { IfOk opened.old (λ file. OnOk result (IfSome (F.remaining file) (λ bytes. into.new.items ≡ bytes))) }
    ensures longer { IfOk opened.old (λ file. IsErrOf result FetchFault.TooLong
        → IfSome (F.remaining file) (λ bytes. limit < length bytes)) }

    // A file that failed lost at most `limit` bytes, and so was not read past the limit.
    ensures broken { IfOk opened.old (λ before. IfOk opened.new (λ after. IsErrOf result FetchFault.Failed
        → LosesAtMost (F.remaining before) (F.remaining after) limit)) }
{
    into.clear();
    let answer = read_opened(opened, limit, into);
    misses.settle(alloc, name, answer)
}

/// Reads what was opened, within `limit` bytes. What couldn't be opened is a fault. After a refusal `into` is empty.
fn read_opened<F: Read>(
    opened: &mut io::Result<F>,
    limit: usize,
    into: &mut Vec<u8>,
) -> Result<(), FetchFault>
    requires { into.old.items ≡ [] }
    ensures fits { OnOk result (length into.new.items ≤ limit) }
    ensures unopened { IsErr opened.old → IsErrOf result FetchFault.Failed }
    ensures emptied { OnErr result (into.new.items ≡ []) }

    // Where the opened file tells what it has, these are the bytes, and `TooLong` comes only where there are more.
    ensures whole { IfOk opened.old (λ file. OnOk result (IfSome (F.remaining file) (λ bytes. into.new.items ≡ bytes))) }
    ensures longer { IfOk opened.old (λ file. IsErrOf result FetchFault.TooLong
        → IfSome (F.remaining file) (λ bytes. limit < length bytes)) }

    // A file that failed lost at most `limit` bytes, and so was not read past the limit.
    ensures broken { IfOk opened.old (λ before. IfOk opened.new (λ after. IsErrOf result FetchFault.Failed
        → LosesAtMost (F.remaining before) (F.remaining after) limit)) }
{
    match opened {
        Ok(file) => match read_within(file, limit, into) {
            Ok(()) => Ok(()),
            Err(fault) => {
                into.clear();
                Err(fault)
            }
        },
        Err(_) => Err(FetchFault::Failed),
    }
}

/// Reads to the end, where that comes within `limit` bytes. A read that gives nothing is the end.
fn read_within<F: Read>(file: &mut F, limit: usize, into: &mut Vec<u8>) -> Result<(), FetchFault>
    requires { into.old.items ≡ [] }
    ensures fits { OnOk result (length into.new.items ≤ limit) }

    // Where the reader tells what it has left, these are the bytes, and `TooLong` comes only where there are more.
    ensures whole { OnOk result (IfSome (F.remaining file.old) (λ bytes. into.new.items ≡ bytes)) }
    ensures longer { IsErrOf result FetchFault.TooLong → IfSome (F.remaining file.old) (λ bytes. limit < length bytes) }

    // Whatever the answer, the reader loses at most one byte more than the limit, and where it fails at most the limit.
    ensures asks { LosesAtMost (F.remaining file.old) (F.remaining file.new) (limit + 1) }
    ensures broken { IsErrOf result FetchFault.Failed → LosesAtMost (F.remaining file.old) (F.remaining file.new) limit }
{
    let mut piece = [0u8; PIECE];
    loop {
        let ask = (limit - into.len()).min(PIECE - 1) + 1;
        let count = match file.read(&mut piece[..ask]) {
            Ok(count) => count,
            Err(_) => return Err(FetchFault::Failed),
        };
        if count == 0 {
            return Ok(());
        }
        if count > limit - into.len() {
            return Err(FetchFault::TooLong);
        }
        if into.extend_from_slice(&piece[..count]).is_err() {
            return Err(FetchFault::NoMemory);
        }
    }
}
