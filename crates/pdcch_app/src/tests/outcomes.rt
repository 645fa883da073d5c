//! Whole runs, and runs over shelves and sinks that fail.
use super::{GRANTS, POINTS, files, grid, run_into, sink};
use crate::tests::short_shelf::ShortShelf;
use outside::{MemoryShelf, MemorySink};
use run_steps::Status;
use std::alloc::Global;
use std::test::Fail;

/// A shelf with a last file, where the call of a number fails.
fn shelf(alloc: Global, last: &str, failing: u64) -> Result<MemoryShelf, Fail> {
    let objects = files(alloc, last)?;
    Ok(MemoryShelf::new(objects, vec![in alloc; failing]?))
}

#[test]
fn writes_the_grid(rt: HostRuntime) -> Result<(), Fail> {
    let alloc = rt.alloc();
    let mut shelf = shelf(alloc, GRANTS, u64::MAX)?;
    let sinks = (sink(alloc)?, sink(alloc)?);
    let ran = run_into(&rt, alloc, "write s r i g", &mut shelf, sinks)?;
    let text = grid(alloc, POINTS)?;
    assert_eq!(rt; ran.status, Status::Done);
    assert_eq!(rt; ran.out.bytes(), text.as_bytes());
    assert!(rt; ran.err.bytes().is_empty());
    Ok(())
}

/// What the handset of the example hears on its grid.
const REPORT: &str =
    "frame 0 slot 0\nhandset alpha watches 1 heard 1\nset 1 symbol 0 level 8 candidate 0 size 39 rnti 0011 1_0 fdra=101 tdra=2 vrb=0 mcs=10 ndi=1 rv=0 harq=3 dai=0 tpc=1 pucch=5 timing=3\n";

#[test]
fn reports_the_grid(rt: HostRuntime) -> Result<(), Fail> {
    let alloc = rt.alloc();
    let text = grid(alloc, POINTS)?;
    let mut shelf = shelf(alloc, text.as_str(), u64::MAX)?;
    let sinks = (sink(alloc)?, sink(alloc)?);
    let ran = run_into(&rt, alloc, "search s r i g", &mut shelf, sinks)?;
    assert_eq!(rt; ran.status, Status::Done);
    assert_eq!(rt; ran.out.bytes(), REPORT.as_bytes());
    assert!(rt; ran.err.bytes().is_empty());
    Ok(())
}

/// The lines of its one watch.
const EXPLAINED: &str =
    "watch 0 set 1 symbol 0 level 8 candidate 0 size 39\nheard: 1_0 fdra=101 tdra=2 vrb=0 mcs=10 ndi=1 rv=0 harq=3 dai=0 tpc=1 pucch=5 timing=3\n";

#[test]
fn explains_the_watch(rt: HostRuntime) -> Result<(), Fail> {
    let alloc = rt.alloc();
    let text = grid(alloc, POINTS)?;
    let mut shelf = shelf(alloc, text.as_str(), u64::MAX)?;
    let sinks = (sink(alloc)?, sink(alloc)?);
    let line = "explain s --watch 000000000 r i --handset alpha g";
    let ran = run_into(&rt, alloc, line, &mut shelf, sinks)?;
    assert_eq!(rt; ran.status, Status::Done);
    assert_eq!(rt; ran.out.bytes(), EXPLAINED.as_bytes());
    assert!(rt; ran.err.bytes().is_empty());
    Ok(())
}

#[test]
fn no_such_watch(rt: HostRuntime) -> Result<(), Fail> {
    let alloc = rt.alloc();
    let text = grid(alloc, POINTS)?;
    let mut shelf = shelf(alloc, text.as_str(), u64::MAX)?;
    let sinks = (sink(alloc)?, sink(alloc)?);
    let line = "explain s r i g --handset alpha --watch 01";
    let ran = run_into(&rt, alloc, line, &mut shelf, sinks)?;
    assert_eq!(rt; ran.status, Status::NoSuch);
    assert!(rt; ran.out.bytes().is_empty());
    assert_eq!(rt; ran.err.bytes(), b"error: no such watch 01\n".as_slice());
    Ok(())
}

#[test]
fn failing_output(rt: HostRuntime) -> Result<(), Fail> {
    let alloc = rt.alloc();
    let mut shelf = shelf(alloc, GRANTS, u64::MAX)?;
    let out = MemorySink::new(alloc, 1_048_576, 100, vec![in alloc; 1]?)?;
    let ran = run_into(&rt, alloc, "write s r i g", &mut shelf, (out, sink(alloc)?))?;
    assert_eq!(rt; ran.status, Status::WriteFault);
    assert_eq!(rt; ran.out.bytes().len(), 100);
    let whole = grid(alloc, POINTS)?;
    assert!(rt; whole.as_bytes().starts_with(ran.out.bytes()));
    assert!(rt; ran.err.bytes().is_empty());
    Ok(())
}

#[test]
fn failing_error_output(rt: HostRuntime) -> Result<(), Fail> {
    let alloc = rt.alloc();
    let mut shelf = shelf(alloc, GRANTS, 3)?;
    let err = MemorySink::new(alloc, 1_048_576, 7, vec![in alloc; 1]?)?;
    let ran = run_into(&rt, alloc, "write s r i g", &mut shelf, (sink(alloc)?, err))?;
    assert_eq!(rt; ran.status, Status::WriteFault);
    assert!(rt; ran.out.bytes().is_empty());
    assert_eq!(rt; ran.err.bytes(), b"error: ".as_slice());
    Ok(())
}

#[test]
fn failing_file(rt: HostRuntime) -> Result<(), Fail> {
    let alloc = rt.alloc();
    let mut shelf = shelf(alloc, GRANTS, 2)?;
    let sinks = (sink(alloc)?, sink(alloc)?);
    let ran = run_into(&rt, alloc, "write s r i g", &mut shelf, sinks)?;
    assert_eq!(rt; ran.status, Status::ReadFault);
    assert!(rt; ran.out.bytes().is_empty());
    assert_eq!(rt; ran.err.bytes(), b"error: read i\n".as_slice());
    Ok(())
}

#[test]
fn short_of_memory(rt: HostRuntime) -> Result<(), Fail> {
    let alloc = rt.alloc();
    let sinks = (sink(alloc)?, sink(alloc)?);
    let ran = run_into(&rt, alloc, "search s r i g", &mut ShortShelf, sinks)?;
    assert_eq!(rt; ran.status, Status::NoMemory);
    assert_eq!(rt; ran.status.code(), 10);
    assert!(rt; ran.out.bytes().is_empty());
    assert_eq!(rt; ran.err.bytes(), b"error: memory\n".as_slice());
    Ok(())
}
