//! A desk with less room than grants, which the program never opens, and one of many handsets.
ghost use Rattle.std.specs.Prelude.{◌≡◌, ◌≤◌, IfOk};

use cell_placer::{Desk, Placed, Refusal};
use grant_file::read_grants;
use rrc_settings::Cell;
use std::alloc::Global;
use std::test::Fail;
use test_drafts::cells::crowded::CLASH;
use test_drafts::large::large_cell;
use test_drafts::tables::ascending_tables;

/// A grant at each of the three watches of `CLASH` in their order; the last one names no symbol, so it would also go
/// to the second watch.
const GRANTS: &str =
    "{\"frame\":0,\"slot\":0,\"grants\":[{\"handset\":\"alpha\",\"set\":1,\"level\":8,\"format\":\"1_0\",\"fields\":{\"fdra\":101}},{\"handset\":\"alpha\",\"set\":2,\"level\":4,\"symbol\":0,\"format\":\"1_0\",\"fields\":{\"fdra\":101}},{\"handset\":\"alpha\",\"set\":2,\"level\":4,\"format\":\"1_0\",\"fields\":{\"fdra\":101}}]}";

/// What becomes of the grants on a desk with room for one: that the first is in the way of the second is told before
/// that the desk is full.
const ANSWERS: [Result<Placed, Refusal>; 3] = [
    Ok(Placed { watch: 0 }),
    Err(Refusal::Overlap { earlier: 0 }),
    Err(Refusal::Full { room: 1 }),
];

/// The desk of slot 0 with room for so many grants.
fn desk_for(alloc: Global, cell: &Cell, room: u32) -> Result<Desk, Fail>
    requires { room ≤ 4096 }
    ensures { IfOk result (λ desk. desk.ledger.calls ≡ 0) }
{
    match Desk::open(alloc, cell, 0, 0, room) {
        Ok(desk) => Ok(desk),
        Err(_) => Err("no desk".into()),
    }
}

#[test]
fn a_full_desk_refuses(rt: HostRuntime) -> Result<(), Fail> {
    let alloc = rt.alloc();
    let tables = ascending_tables(alloc)?;
    let cell = CLASH.cell(alloc)?;
    assert_eq!(rt; cell.raw().mu, 1);
    let list = read_grants(alloc, 1, GRANTS.as_bytes())
        .ok()
        .ok_or("refused")?;
    let mut desk = desk_for(alloc, &cell, 1)?;
    let [first, second, third] = list.grants.as_slice() else {
        return Err("not three".into());
    };
    assert_eq!(rt; desk.place(&tables, first), ANSWERS[0]);
    assert_eq!(rt; desk.place(&tables, second), ANSWERS[1]);
    assert_eq!(rt; desk.place(&tables, third), ANSWERS[2]);
    Ok(())
}

/// Grants of the first and the last handset at one watch, one of the last with no candidate named, and one of no handset.
const FEW: &str =
    r#"{"frame":0,"slot":0,"grants":[{"handset":"h0","set":1,"level":1,"candidate":0,"symbol":0,"format":"1_0"},
{"handset":"h63","set":10,"level":1,"candidate":0,"symbol":0,"format":"1_0"},
{"handset":"h63","set":10,"level":1,"format":"1_0"},{"handset":"h64","set":1,"level":1,"format":"1_0"}]}"#;

#[test]
fn a_desk_of_many_watches(rt: HostRuntime) -> Result<(), Fail> {
    let alloc = rt.alloc();
    let tables = ascending_tables(alloc)?;
    let cell = Cell::checked(large_cell(alloc, 64)?)?;
    assert_eq!(rt; cell.raw().mu, 0);
    let list = read_grants(alloc, 0, FEW.as_bytes())?;
    let mut desk = desk_for(alloc, &cell, 4096)?;
    let [first, second, third, fourth] = list.grants.as_slice() else {
        return Err("not four".into());
    };
    assert_eq!(rt; desk.place(&tables, first), Ok(Placed { watch: 0 }));
    assert_eq!(rt;
        desk.place(&tables, second),
        Err(Refusal::Overlap { earlier: 0 })
    );
    assert_eq!(rt; desk.place(&tables, third), Ok(Placed { watch: 1011 }));
    assert_eq!(rt; desk.place(&tables, fourth), Err(Refusal::UnknownHandset));
    Ok(())
}
