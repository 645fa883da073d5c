//! Runs into sinks that take little at once, whole and cut short, and into an error output that takes nothing.
ghost use Rattle.std.specs.Prelude.{◌≤◌};

use super::{GRANTS, POINTS, files, grid, run_into, sink};
use outside::{MemoryShelf, MemorySink};
use run_steps::Status;
use std::alloc::Global;
use std::test::Fail;

/// The grant of the example twice: the second one finds its only watch taken.
const TWICE: &str =
    "{\"frame\":0,\"slot\":0,\"grants\":[{\"handset\":\"alpha\",\"set\":1,\"level\":8,\"format\":\"1_0\",\"fields\":{\"fdra\":101,\"tdra\":2,\"mcs\":10,\"ndi\":1,\"harq\":3,\"tpc\":1,\"pucch\":5,\"timing\":3}},{\"handset\":\"alpha\",\"set\":1,\"level\":8,\"format\":\"1_0\",\"fields\":{\"fdra\":101,\"tdra\":2,\"mcs\":10,\"ndi\":1,\"harq\":3,\"tpc\":1,\"pucch\":5,\"timing\":3}}]}";

/// A shelf with a last file, which never fails.
fn shelf(alloc: Global, last: &str) -> Result<MemoryShelf, Fail> {
    Ok(MemoryShelf::new(files(alloc, last)?, Vec::new(alloc)))
}

/// A sink that takes at most so many bytes at a call, and fails at the call of a number, from 0.
fn narrow(alloc: Global, width: usize, failing: u64) -> Result<MemorySink, Fail>
    requires { 1 ≤ width }
{
    Ok(MemorySink::new(alloc, 1_048_576, width, vec![in alloc; failing]?)?)
}

#[test]
fn byte_by_byte(rt: HostRuntime) -> Result<(), Fail> {
    let alloc = rt.alloc();
    let mut shelf = shelf(alloc, GRANTS)?;
    let sinks = (narrow(alloc, 1, u64::MAX)?, sink(alloc)?);
    let ran = run_into(&rt, alloc, "write s r i g", &mut shelf, sinks)?;
    let text = grid(alloc, POINTS)?;
    assert_eq!(rt; ran.status, Status::Done);
    assert_eq!(rt; ran.out.bytes(), text.as_bytes());
    assert!(rt; ran.err.bytes().is_empty());
    Ok(())
}

#[test]
fn report_cut_short(rt: HostRuntime) -> Result<(), Fail> {
    let alloc = rt.alloc();
    let text = grid(alloc, POINTS)?;
    let mut shelf = shelf(alloc, text.as_str())?;
    let sinks = (narrow(alloc, 5, 4)?, sink(alloc)?);
    let ran = run_into(&rt, alloc, "search s r i g", &mut shelf, sinks)?;
    assert_eq!(rt; ran.status, Status::WriteFault);
    assert_eq!(rt; ran.out.bytes(), b"frame 0 slot 0\nhands".as_slice());
    assert!(rt; ran.err.bytes().is_empty());
    Ok(())
}

#[test]
fn refusal_cut_short(rt: HostRuntime) -> Result<(), Fail> {
    let alloc = rt.alloc();
    let mut shelf = shelf(alloc, TWICE)?;
    let sinks = (sink(alloc)?, narrow(alloc, 5, 2)?);
    let ran = run_into(&rt, alloc, "write s r i g", &mut shelf, sinks)?;
    let text = grid(alloc, POINTS)?;
    assert_eq!(rt; ran.status, Status::WriteFault);
    assert_eq!(rt; ran.out.bytes(), text.as_bytes());
    assert_eq!(rt; ran.err.bytes(), b"grant 1: o".as_slice());
    Ok(())
}

#[test]
fn usage_not_told(rt: HostRuntime) -> Result<(), Fail> {
    let alloc = rt.alloc();
    let mut shelf = shelf(alloc, GRANTS)?;
    let sinks = (sink(alloc)?, narrow(alloc, 1_048_576, 0)?);
    let ran = run_into(&rt, alloc, "write a b c", &mut shelf, sinks)?;
    assert_eq!(rt; ran.status, Status::WriteFault);
    assert!(rt; ran.out.bytes().is_empty());
    assert!(rt; ran.err.bytes().is_empty());
    Ok(())
}
