//! Downlink control information spelled on the grid at a watch.
ghost use Rattle.std.specs.Prelude.{◌≡◌, ◌↔◌, true, Err, OnErr, OnOk, length};
ghost use Rattle.crc_mask.specs.Parity.{masked};
ghost use Rattle.dci_fields.specs.declared.fault.FieldFault.{FieldFault};
ghost use Rattle.dci_fields.specs.GivenValues.{IsFieldFault};
ghost use Rattle.monitor_plan.specs.Watch.{fits, list_of, IsCarrying, IsInside, IsSound};
ghost use Rattle.slot_grid.specs.Image.{overwritten};
ghost use Rattle.dci_codec.specs.BlockImage.{block_image};
ghost use Rattle.dci_codec.specs.KnownCodes.{AreOf};
ghost use Rattle.dci_codec.specs.Spelled.{IsSpelled};

use crate::Codes;
use crate::scrambling::scramble;
use bits_core::Payload;
use crc_mask::attach;
use dci_fields::{FieldFault, Format, Given, pack};
use dmrs_qpsk::put_bits_with;
use monitor_plan::Watch;
use slot_grid::Grid;
use table_files::Tables;

/// Writes the values that are given in a format that fits the watch, and leaves every place that is not the watch's: the
/// payload with its parity, masked by the watch's RNTI, coded, scrambled and modulated, beside the reference points
/// (3GPP TS 38.212, 7.3). Where the values make no payload, the grid is as it was.
pub fn spell(
    tables: &Tables,
    watch: &Watch,
    format: Format,
    given: &[Given],
    grid: &mut Grid,
) -> Result<(), FieldFault>
    requires sound { IsSound watch.now }
    requires inside { IsInside grid.old.blocks watch.now }
    requires fitting { fits watch.now format ≡ true }
    ensures fault { (fault : FieldFault) → (result ≡ Err fault) ↔ IsFieldFault (list_of watch.now format) format given.now fault }
    ensures refused { OnErr result (grid.new ≡ grid.old) }
    ensures spelled { OnOk result (IsSpelled tables.now watch.now format given.now grid.old grid.new) }
{
    let mut codes = Codes::new();
    spell_with(&mut codes, tables, watch, format, given, grid)
}

/// As `spell`, with the codes that spelling and hearing by these tables have made so far: none is made again while it is kept.
pub fn spell_with(
    codes: &mut Codes,
    tables: &Tables,
    watch: &Watch,
    format: Format,
    given: &[Given],
    grid: &mut Grid,
) -> Result<(), FieldFault>
    requires sound { IsSound watch.now }
    requires inside { IsInside grid.old.blocks watch.now }
    requires fitting { fits watch.now format ≡ true }
    requires codes { AreOf tables.now codes.old }
    ensures fault { (fault : FieldFault) → (result ≡ Err fault) ↔ IsFieldFault (list_of watch.now format) format given.now fault }
    ensures refused { OnErr result (grid.new ≡ grid.old) }
    ensures spelled { OnOk result (IsSpelled tables.now watch.now format given.now grid.old grid.new) }
    ensures codes { AreOf tables.now codes.new }
{
    let payload = pack(&watch.list(format), format, given, usize::from(watch.size))?;
    put_payload(codes, tables, watch, &payload, grid);
    Ok(())
}

/// Writes a payload of the watch's size: with its parity, masked by the watch's RNTI, coded, scrambled and modulated, beside
/// the reference points.
pub fn put_payload(
    codes: &mut Codes,
    tables: &Tables,
    watch: &Watch,
    payload: &Payload,
    grid: &mut Grid,
)
    requires carrying { IsCarrying watch.now }
    requires inside { IsInside grid.old.blocks watch.now }
    requires size { length payload.now ≡ watch.now.size }
    requires codes { AreOf tables.now codes.old }
    ensures written { grid.new ≡ overwritten (block_image tables.now grid.old.slot watch.now
        (masked payload.now watch.now.rnti)) grid.old }
    ensures slot { grid.new.slot ≡ grid.old.slot }
    ensures blocks { grid.new.blocks ≡ grid.old.blocks }
    ensures codes { AreOf tables.now codes.new }
{
    let block = attach(payload, watch.rnti);
    codes.turn_to(tables, watch);
    let bits = scramble(&codes.last().encode(&block), watch.scramble);
    let references = &mut codes.references;
    put_bits_with(
        references,
        grid,
        watch.symbol,
        &watch.regs,
        watch.dmrs_id,
        &bits,
    );
}
