//! Shelves and sinks, in memory and on the runtime.
use outside::{
    Failed, FetchFault, FileShelf, MemoryShelf, MemorySink, NamedBytes, Shelf, Sink, StdSink,
    SureShelf, SureSink, put_all,
};
use std::alloc::{AllocError, Global};
use std::test::Fail;
use std::{fs, process};

fn object(alloc: Global, name: &str, bytes: &[u8]) -> Result<NamedBytes, AllocError> {
    Ok(NamedBytes {
        name: String::from_str(alloc, name)?,
        bytes: Vec::from_slice(alloc, bytes)?,
    })
}

/// Whether a fetch into a used place answers this and leaves these bytes there.
fn fetches<S: Shelf>(
    shelf: &mut S,
    alloc: Global,
    name: &str,
    limit: usize,
    want: (Result<(), FetchFault>, &[u8]),
) -> Result<bool, Fail>
    requires { S.may shelf.old name.now }
{
    let mut into = Vec::from_slice(alloc, b"left over")?;
    let answer = shelf.fetch(alloc, name, limit, &mut into);
    Ok((answer, into.as_slice()) == want)
}

/// Three objects, of which two have one name.
fn objects(alloc: Global) -> Result<Vec<NamedBytes>, AllocError> {
    let mut objects = Vec::new(alloc);
    objects.push(object(alloc, "settings", b"first")?)?;
    objects.push(object(alloc, "grants", b"")?)?;
    objects.push(object(alloc, "settings", b"second")?)?;
    Ok(objects)
}

/// Calls in order, of which the second and the seventh are to fail: a name, a limit, the answer and the bytes that it leaves.
const CALLS: [(&str, usize, Result<(), FetchFault>, &[u8]); 8] = [
    ("settings", 5, Ok(()), b"first"),
    ("settings", 5, Err(FetchFault::Failed), b""),
    ("settings", 4, Err(FetchFault::TooLong), b""),
    ("settings", 6, Ok(()), b"first"),
    ("grants", 0, Ok(()), b""),
    ("grant", 9, Err(FetchFault::Failed), b""),
    ("settings", 0, Err(FetchFault::Failed), b""),
    ("grants", 9, Ok(()), b""),
];

#[test]
fn fetches_from_memory(rt: HostRuntime) -> Result<(), Fail> {
    let alloc = rt.alloc();
    let mut shelf = MemoryShelf::new(objects(alloc)?, vec![in alloc; 1, 6]?);
    for (name, limit, want, left) in CALLS {
        let known = fetches(&mut shelf, alloc, name, limit, (want, left))?;
        assert!(rt; known, "{name} within {limit}");
    }
    Ok(())
}

/// Calls in order of a shelf that never fails: a name, a limit, the answer and the bytes that it leaves.
const SURE_CALLS: [(&str, usize, Result<(), FetchFault>, &[u8]); 8] = [
    ("settings", 5, Ok(()), b"first"),
    ("settings", 4, Err(FetchFault::TooLong), b""),
    ("settings", 6, Ok(()), b"first"),
    ("settings", 0, Err(FetchFault::TooLong), b""),
    ("grants", 0, Ok(()), b""),
    ("grant", 0, Ok(()), b""),
    ("settings ", 9, Ok(()), b""),
    ("", 9, Ok(()), b""),
];

#[test]
fn fetches_without_faults(rt: HostRuntime) -> Result<(), Fail> {
    let alloc = rt.alloc();
    let mut shelf = SureShelf::new(objects(alloc)?);
    for (name, limit, want, left) in SURE_CALLS {
        let known = fetches(&mut shelf, alloc, name, limit, (want, left))?;
        assert!(rt; known, "{name} within {limit}");
    }
    Ok(())
}

/// Puts in order, of which the second is to fail: a piece, the answer, and the bytes that are taken in all.
const PUTS: [(&[u8], Result<usize, Failed>, &[u8]); 7] = [
    (b"", Ok(0), b""),
    (b"abcde", Ok(3), b"abc"),
    (b"de", Err(Failed), b"abc"),
    (b"de", Ok(2), b"abcde"),
    (b"fghij", Ok(3), b"abcdefgh"),
    (b"ij", Err(Failed), b"abcdefgh"),
    (b"", Ok(0), b"abcdefgh"),
];

#[test]
fn puts_into_memory(rt: HostRuntime) -> Result<(), Fail> {
    let alloc = rt.alloc();
    let mut sink = MemorySink::new(alloc, 8, 3, vec![in alloc; 1]?)?;
    for (piece, want, taken) in PUTS {
        assert_eq!(rt; sink.put(piece), want, "{piece:?}");
        assert_eq!(rt; sink.bytes(), taken, "{piece:?}");
    }
    Ok(())
}

#[test]
fn puts_all_into_memory(rt: HostRuntime) -> Result<(), Fail> {
    let alloc = rt.alloc();
    let mut sink = MemorySink::new(alloc, 8, 3, Vec::new(alloc))?;
    assert_eq!(rt; put_all(&mut sink, b"abcdefg"), Ok(()));
    assert_eq!(rt; put_all(&mut sink, b"hi"), Err(Failed));
    assert_eq!(rt; sink.bytes(), b"abcdefgh".as_slice());
    Ok(())
}

/// So many bytes, no two neighbours alike.
fn bytes_of_count(alloc: Global, count: usize) -> Result<Vec<u8>, AllocError> {
    let mut bytes = Vec::new(alloc);
    for at in 0..count {
        bytes.push((at % 251) as u8)?;
    }
    Ok(bytes)
}

#[test]
fn counts_bytes(rt: HostRuntime) -> Result<(), Fail> {
    let alloc = rt.alloc();
    let long = bytes_of_count(alloc, 70000)?;
    let mut sink = SureSink::new();
    assert_eq!(rt; sink.counted(), 0);
    for (piece, counted) in [
        (b"".as_slice(), 0),
        (b"abcde", 5),
        (b"", 5),
        (b"fg", 7),
        (long.as_slice(), 70007),
    ] {
        assert_eq!(rt; sink.put(piece), Ok(piece.len()));
        assert_eq!(rt; sink.counted(), counted);
    }
    assert_eq!(rt; put_all(&mut sink, long.as_slice()), Ok(()));
    assert_eq!(rt; sink.counted(), 140007);
    Ok(())
}

#[test]
fn fetches_files(rt: HostRuntime) -> Result<(), Fail> {
    let alloc = rt.alloc();
    let name = format!(in alloc; "/tmp/outside-{}", process::id(rt.process()))?;
    let bytes = vec![in alloc; 7u8; 9000]?;
    fs::write(&rt, name.as_str(), bytes.as_slice())?;
    let name = name.as_str();
    let failed = (Err(FetchFault::Failed), b"".as_slice());
    let too_long = (Err(FetchFault::TooLong), b"".as_slice());
    let mut shelf = FileShelf::new(&rt);
    assert!(rt; fetches(&mut shelf, alloc, "/tmp", 9000, failed)?);
    assert!(rt; fetches(&mut shelf, alloc, name, 9000, (Ok(()), bytes.as_slice()))?);
    assert!(rt; fetches(&mut shelf, alloc, name, 8999, too_long)?);
    fs::remove_file(&rt, name)?;
    assert!(rt; fetches(&mut shelf, alloc, name, 9000, failed)?);
    Ok(())
}

#[test]
fn writes_through(rt: HostRuntime) -> Result<(), Fail> {
    let mut room = [0u8; 7];
    let mut sink = StdSink::new(room.as_mut_slice());
    assert_eq!(rt; put_all(&mut sink, b"abcde"), Ok(()));
    assert_eq!(rt; sink.put(b""), Ok(0));
    assert_eq!(rt; put_all(&mut sink, b"fghij"), Err(Failed));
    assert_eq!(rt; sink.put(b""), Ok(0));
    assert_eq!(rt; &room, b"abcdefg");
    Ok(())
}

/// Sizes of files: none, about a piece of reading, two pieces, and more.
const SIZES: [usize; 8] = [0, 1, 4095, 4096, 4097, 8192, 8193, 70000];

#[test]
fn fetches_files_at_the_limit(rt: HostRuntime) -> Result<(), Fail> {
    let alloc = rt.alloc();
    let name = format!(in alloc; "/tmp/outside-size-{}", process::id(rt.process()))?;
    let name = name.as_str();
    let too_long = (Err(FetchFault::TooLong), b"".as_slice());
    let mut shelf = FileShelf::new(&rt);
    for size in SIZES {
        let bytes = bytes_of_count(alloc, size)?;
        let whole = (Ok(()), bytes.as_slice());
        fs::write(&rt, name, bytes.as_slice())?;
        assert!(rt;
            fetches(&mut shelf, alloc, name, size, whole)?,
            "{size} bytes at the limit"
        );
        assert!(rt;
            fetches(&mut shelf, alloc, name, size + 1, whole)?,
            "{size} bytes below it"
        );
        if size > 0 {
            assert!(rt;
                fetches(&mut shelf, alloc, name, size - 1, too_long)?,
                "{size} bytes above it"
            );
        }
    }
    fs::remove_file(&rt, name)?;
    Ok(())
}

#[test]
fn tells_names_by_their_last_space(rt: HostRuntime) -> Result<(), Fail> {
    let alloc = rt.alloc();
    let spaced = format!(in alloc; "/tmp/outside-space-{} ", process::id(rt.process()))?;
    let plain = format!(in alloc; "/tmp/outside-space-{}", process::id(rt.process()))?;
    fs::write(&rt, spaced.as_str(), b"with".as_slice())?;
    let mut shelf = FileShelf::new(&rt);
    let failed = (Err(FetchFault::Failed), b"".as_slice());
    assert!(rt; fetches(&mut shelf, alloc, spaced.as_str(), 9, (Ok(()), b"with"))?);
    assert!(rt; fetches(&mut shelf, alloc, plain.as_str(), 9, failed)?);
    fs::write(&rt, plain.as_str(), b"without".as_slice())?;
    assert!(rt; fetches(&mut shelf, alloc, spaced.as_str(), 9, (Ok(()), b"with"))?);
    assert!(rt; fetches(&mut shelf, alloc, plain.as_str(), 9, (Ok(()), b"without"))?);
    fs::remove_file(&rt, spaced.as_str())?;
    fs::remove_file(&rt, plain.as_str())?;
    Ok(())
}

#[test]
fn writes_into_a_file(rt: HostRuntime) -> Result<(), Fail> {
    let alloc = rt.alloc();
    let name = format!(in alloc; "/tmp/outside-stream-{}", process::id(rt.process()))?;
    let name = name.as_str();
    let bytes = bytes_of_count(alloc, 70000)?;
    let mut sink = StdSink::new(fs::create(&rt, name)?);
    assert_eq!(rt; put_all(&mut sink, bytes.as_slice()), Ok(()));
    let whole = (Ok(()), bytes.as_slice());
    let mut shelf = FileShelf::new(&rt);
    assert!(rt; fetches(&mut shelf, alloc, name, 70000, whole)?);
    fs::remove_file(&rt, name)?;
    let mut full = StdSink::new(fs::create(&rt, "/dev/full")?);
    assert_eq!(rt; put_all(&mut full, b"abc"), Err(Failed));
    Ok(())
}
