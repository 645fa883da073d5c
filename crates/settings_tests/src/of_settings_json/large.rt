//! The settings of 64 handsets, read.
use settings_json::read_settings;
use std::test::Fail;
use test_drafts::large::{large_cell, large_settings};

#[test]
fn reads_64_handsets(rt: HostRuntime) -> Result<(), Fail> {
    let text = large_settings(rt.alloc(), 64)?;
    let cell = read_settings(rt.alloc(), text.as_bytes())?;
    assert!(rt; *cell.raw() == large_cell(rt.alloc(), 64)?);
    Ok(())
}
