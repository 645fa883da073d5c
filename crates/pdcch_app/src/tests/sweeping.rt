//! A sweep whose searches run at the same time.
use super::meeting::Meeting;
use super::{files, run_past, sink};
use outside::MemoryShelf;
use run_steps::Status;
use std::test::Fail;

/// What is written of the first slot with ascending tables.
const SWEPT: &str =
    "frame 0 slot 0 placed 45 overlapped 19 heard 45\nslots 1 placed 45 overlapped 19 heard 45\n";

/// Two of the searches of a run see at its gate that the other came: those of the first and of the 17th handset.
#[test]
fn gate_meets(rt: HostRuntime) -> Result<(), Fail> {
    let alloc = rt.alloc();
    let mut shelf = MemoryShelf::new(files(alloc, "")?, vec![in alloc; u64::MAX]?);
    let gate = Meeting::of([0, 16]);
    let sinks = (sink(alloc)?, sink(alloc)?);
    let ran = run_past(&rt, alloc, &gate, "sweep 1 r i", &mut shelf, sinks)?;
    assert!(rt; gate.took_place());
    assert_eq!(rt; ran.status, Status::Done);
    assert_eq!(rt; ran.out.bytes(), SWEPT.as_bytes());
    assert!(rt; ran.err.bytes().is_empty());
    Ok(())
}
