//! Names, handsets by their names, and items as a list.
use crate::of_settings_json::edits::SETTINGS;
use rrc_settings::{Items, Name};
use settings_json::read_settings;
use std::process::Abort;
use std::test::Fail;

#[test]
fn names(rt: HostRuntime) {
    assert!(rt; Name::of(b"Handset_16_bytes").is_some());
    for bytes in [
        b"".as_slice(),
        b"a-b",
        b"a b",
        b"seventeen_letters",
        b"\xc3\xa9",
    ] {
        assert!(rt; Name::of(bytes).is_none());
    }
}

#[test]
fn handsets_by_their_names(rt: HostRuntime) -> Result<(), Fail> {
    let cell = read_settings(rt.alloc(), SETTINGS.as_bytes())?;
    let beta = Name::of(b"beta").expect(&rt, "a name");
    let gamma = Name::of(b"gamma").expect(&rt, "a name");
    assert_eq!(rt; cell.handset_of(&beta), Some(1));
    assert_eq!(rt; cell.handset_of(&gamma), None);
    Ok(())
}

#[test]
fn items_give_their_vec_back(rt: HostRuntime) -> Result<(), Fail> {
    let items = Items::from_vec(vec![in rt.alloc(); 3; 2]?);
    assert_eq!(rt; items.into_vec().as_slice(), [3, 3].as_slice());
    Ok(())
}
