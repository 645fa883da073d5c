//! What is told of a cell.
ghost use Rattle.std.specs.Prelude.{◌≡◌, ◌<◌, IfSome, bytes_eq, length, position};
ghost use Rattle.nrpdcch_c.specs.Carriers.{carrier_of, carrier_wanted, handset_in, handset_wanted};
ghost use Rattle.nrpdcch_c.specs.Stops.{answer_number, value_left};

use crate::handle::NrpdcchCell;
use crate::stop::{Stop, answer_number};
use rrc_settings::{Cell, Handset};
use std::alloc::Global;

/// The carrier of a cell, and its handsets.
#[repr(C)]
#[derive(Clone, Copy)]
pub struct NrpdcchCarrier {
    /// The numerology.
    pub mu: u32,
    /// The blocks of the carrier.
    pub blocks: u32,
    /// How many handsets there are.
    pub handsets: u32,
}

/// What is told of a cell.
fn carrier_of(cell: &Cell) -> NrpdcchCarrier
    ensures { result ≡ carrier_of cell.now }
{
    let raw = cell.raw();
    NrpdcchCarrier {
        mu: u32::from(raw.mu),
        blocks: u32::from(raw.blocks),
        handsets: raw.handsets.as_slice().len() as u32,
    }
}

/// The place of the first of some handsets that has a name.
fn place_of(handsets: &[Handset], name: &[u8]) -> Option<usize>
    ensures place { result ≡ position (λ h. bytes_eq h.name name.now) handsets.now }
    ensures inside { IfSome result (λ at. at < length handsets.now) }
{
    handsets.iter().position(|handset| has_name(handset, name))
}

/// Whether a handset has a name.
fn has_name(handset: &Handset, name: &[u8]) -> bool
    ensures { result ≡ bytes_eq handset.now.name name.now }
{
    handset.name.as_bytes() == name
}

/// The place of the handset of a name.
fn handset_in(cell: &Cell, name: &[u8]) -> Result<u32, Stop>
    ensures { result ≡ handset_in cell.now name.now }
{
    match place_of(cell.raw().handsets.as_slice(), name) {
        Some(place) => Ok(place as u32),
        None => Err(Stop::NoHandset),
    }
}

/// What is told of the cell behind a handle.
fn carrier_behind(alloc: Global, cell: &mut NrpdcchCell) -> Result<NrpdcchCarrier, Stop>
    ensures answer { result ≡ carrier_wanted cell.old.value }
    ensures kept { cell.new.value ≡ cell.old.value }
{
    if !cell.is_full() {
        return Err(Stop::Closed);
    }
    let opened = cell.take(alloc);
    let carrier = carrier_of(&opened.cell);
    cell.put(opened);
    Ok(carrier)
}

/// The place of the handset of a name in the cell behind a handle.
fn handset_behind(alloc: Global, cell: &mut NrpdcchCell, name: &[u8]) -> Result<u32, Stop>
    ensures answer { result ≡ handset_wanted cell.old.value name.now }
    ensures kept { cell.new.value ≡ cell.old.value }
{
    if !cell.is_full() {
        return Err(Stop::Closed);
    }
    let opened = cell.take(alloc);
    let answer = handset_in(&opened.cell, name);
    cell.put(opened);
    answer
}

/// Writes a value where there is one.
fn put_value<T: Copy + Drop>(answer: &Result<T, Stop>, place: &mut T)
    ensures { place.new ≡ value_left (λ t. t) answer.now place.old }
{
    if let Ok(value) = answer {
        *place = *value;
    }
}

/// The numerology, the blocks and the number of handsets of the cell behind a handle.
#[unsafe(no_mangle)]
pub extern "C" fn nrpdcch_cell_carrier(
    alloc: Global,
    cell: &mut NrpdcchCell,
    carrier: &mut NrpdcchCarrier,
) -> u32
    ensures answer { result ≡ answer_number (carrier_wanted cell.old.value) }
    ensures carrier { carrier.new ≡ value_left (λ found. found) (carrier_wanted cell.old.value) carrier.old }
    ensures kept { cell.new.value ≡ cell.old.value }
{
    let answer = carrier_behind(alloc, cell);
    put_value(&answer, carrier);
    answer_number(&answer)
}

/// The place of the handset of a name in the list of the cell behind a handle.
#[unsafe(no_mangle)]
pub extern "C" fn nrpdcch_cell_handset(
    alloc: Global,
    cell: &mut NrpdcchCell,
    name: &[u8],
    handset: &mut u32,
) -> u32
    ensures answer { result ≡ answer_number (handset_wanted cell.old.value name.now) }
    ensures handset { handset.new ≡ value_left (λ found. found) (handset_wanted cell.old.value name.now) handset.old }
    ensures kept { cell.new.value ≡ cell.old.value }
{
    let answer = handset_behind(alloc, cell, name);
    put_value(&answer, handset);
    answer_number(&answer)
}
