//! The cell of the load.
ghost use Rattle.std.specs.Prelude.{◌≡◌, [], ◌∷◌, ◌<◌, IfOk, map};
ghost use Rattle.std.specs.List.{range_with_len};
ghost use Rattle.par_sweep.specs.LoadCell.{handset_name, load_cell, load_coreset, load_handset, load_set};

use arrayvec::ArrayVec;
use bits_core::NoMemory;
use rrc_settings::{
    Bwp, Cell, Codebook, Coreset, Handset, Interleave, Items, Name, RawCell, SearchSet, SetKind,
};
use std::alloc::{AllocError, Global};

/// How many blocks the carrier and each bandwidth part have.
const BLOCKS: u16 = 273;

/// How many handsets the cell has.
pub(crate) const HANDSETS: u16 = 32;

/// All blocks.
const ALL_BLOCKS: Bwp = Bwp {
    start: 0,
    size: BLOCKS,
};

/// All 45 groups of six blocks in two symbols, interleaved.
const CORESET: Coreset = Coreset {
    number: 1,
    groups: 0x1fff_ffff_ffff,
    duration: 2,
    interleave: Some(Interleave {
        bundle: 6,
        rows: 2,
        shift: Some(7),
    }),
    dmrs_id: None,
};

/// The cell of the load: 32 handsets, each with one set of two candidates.
pub fn load_cell(alloc: Global) -> Result<Cell, NoMemory>
    ensures { IfOk result (λ cell. cell ≡ load_cell) }
{
    let Ok(handsets) = handsets(alloc) else {
        return Err(NoMemory);
    };
    match Cell::checked(raw_cell(handsets)) {
        Ok(cell) => Ok(cell),
        Err(_) => unreachable!(),
    }
}

/// Its settings.
#[tactic(auto, unfolding(crate::specs::LoadCell::load_cell))]
fn raw_cell(handsets: Vec<Handset>) -> RawCell
    requires { handsets.items ≡ map load_handset (range_with_len 0 32) }
    ensures { result ≡ load_cell }
{
    RawCell {
        version: 1,
        cell: 100,
        mu: 0,
        blocks: BLOCKS,
        initial_downlink: BLOCKS,
        initial_uplink: BLOCKS,
        coreset0: None,
        handsets: Items::from_vec(handsets),
    }
}

/// Its handsets.
fn handsets(alloc: Global) -> Result<Vec<Handset>, AllocError>
    ensures { IfOk result (λ handsets. handsets.items ≡ map load_handset (range_with_len 0 32)) }
{
    let mut handsets = Vec::with_capacity(alloc, usize::from(HANDSETS))?;
    for number in 0..HANDSETS {
        handsets.push(handset(alloc, number)?)?;
    }
    Ok(handsets)
}

/// The handset with a number.
fn handset(alloc: Global, number: u16) -> Result<Handset, AllocError>
    requires { number < 32 }
    ensures { IfOk result (λ handset. handset ≡ load_handset number) }
{
    Ok(Handset {
        name: handset_name(alloc, number)?,
        rnti: number + 1,
        downlink: ALL_BLOCKS,
        uplink: ALL_BLOCKS,
        codebook: Codebook::SemiStatic,
        coresets: one_coreset(),
        sets: one_set(number),
        uplink_fields: None,
        downlink_fields: None,
    })
}

/// Its name.
pub(crate) fn handset_name(alloc: Global, number: u16) -> Result<Name, AllocError>
    requires { number < 32 }
    ensures { IfOk result (λ name. name ≡ handset_name number) }
{
    let text = format!(in alloc; "h{number}")?;
    match Name::of(text.as_bytes()) {
        Some(name) => Ok(name),
        None => unreachable!(),
    }
}

/// Its CORESET.
fn one_coreset() -> ArrayVec<Coreset, 3>
    ensures { result.items ≡ load_coreset ∷ [] }
{
    let mut coresets = ArrayVec::new();
    coresets.push(CORESET);
    coresets
}

/// Its set.
fn one_set(number: u16) -> ArrayVec<SearchSet, 10>
    ensures { result.items ≡ load_set number ∷ [] }
{
    let mut sets = ArrayVec::new();
    sets.push(SearchSet {
        number: 1,
        coreset: 1,
        kind: SetKind::Fallback,
        period: 1,
        offset: 0,
        duration: 1,
        symbols: 1,
        candidates: [0, 2, 0, 0, 0],
        base: number,
    });
    sets
}
