//! The numbers at the beginning of a grid's text.
ghost use Rattle.std.specs.Prelude.{◌≡◌, ◌≤◌, IfOk, IfErr};
ghost use Rattle.slot_grid.specs.Grid.{slots_in_frame};
ghost use Rattle.grid_file.specs.Fields.{IsRange};
ghost use Rattle.grid_file.specs.GridText.{IsGridText};
ghost use Rattle.grid_file.specs.LeavingPlace.{LeavesAt};
ghost use Rattle.grid_file.specs.Reading.{IsHead};

use crate::GridFault;
use crate::numbers::{Number, read_field};

/// The numbers of a grid, and the place after each of them.
#[derive(Clone, Copy)]
pub(crate) struct Head {
    pub(crate) mu: Number,
    pub(crate) frame: Number,
    pub(crate) slot: Number,
    pub(crate) blocks: Number,
}

/// How many slots a frame has (3GPP TS 38.211, 4.3.2).
fn slots_in_frame(mu: u16) -> u16
    requires { mu ≤ 3 }
    ensures value { result ≡ slots_in_frame mu }
    ensures range { IsRange 0 result }
{
    10 << mu
}

/// Reads the first two lines without the second one's line feed.
pub(crate) fn read_head(bytes: &[u8]) -> Result<Head, GridFault>
    ensures read { IfOk result (λ h. IsHead bytes.now h) }
    ensures leaves { IfErr result (λ fault. LeavesAt IsGridText bytes.now fault.at) }
{
    let mu = read_field(bytes, 0, b"nrpdcch grid 1\nmu ", 0, 4)?;
    let frame = read_field(bytes, mu.next, b" frame ", 0, 1024)?;
    let slot = read_field(bytes, frame.next, b" slot ", 0, slots_in_frame(mu.value))?;
    let blocks = read_field(bytes, slot.next, b" blocks ", 6, 276)?;
    Ok(Head {
        mu,
        frame,
        slot,
        blocks,
    })
}
