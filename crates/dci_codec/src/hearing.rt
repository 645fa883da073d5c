//! What a handset hears at a watch.
ghost use Rattle.std.specs.Prelude.{◌≡◌, ◌↔◌, true, ℕ, Bool, List, Ok, Err, MatchOption, Some, length};
ghost use Rattle.std.specs.Result.{result_ok};
ghost use Rattle.dci_fields.specs.Payloads.{Carries};
ghost use Rattle.dci_fields.specs.declared.values.FieldValue.{FieldValue};
ghost use Rattle.monitor_plan.specs.Watch.{fits, list_of, IsCarrying, IsInside, IsSound};
ghost use Rattle.dci_codec.specs.declared.heard.Heard.{Heard};
ghost use Rattle.dci_codec.specs.declared.silence.Silence.{Silence};
ghost use Rattle.dci_codec.specs.Answer.{answer_at};
ghost use Rattle.dci_codec.specs.Hearing.{AreTables, IsHeard, IsReadAs};
ghost use Rattle.dci_codec.specs.KnownCodes.{AreOf};
ghost use Rattle.dci_codec.specs.Silences.{IsAnswer, IsPayloadAnswer, IsSilence};
ghost use Rattle.dci_codec.specs.TheSpelling.{heard_at};

use crate::scrambling::scramble;
use crate::{Codes, Heard, Silence};
use bits_core::Payload;
use crc_mask::strip;
use dci_fields::{Format, Values, unpack};
use dmrs_qpsk::take_bits_with;
use monitor_plan::Watch;
use polar_chain::NoWord;
use slot_grid::Grid;
use table_files::Tables;

/// What the handset hears on a grid at the watch of this number: the format and the shown fields of the one spelling whose
/// masked payload has the grid's points as its image; or, where there is no such spelling, the stage of hearing that fails
/// first (3GPP TS 38.212, 7.3).
pub fn hear(tables: &Tables, watch: &Watch, number: u32, grid: &Grid) -> Result<Heard, Silence>
    requires sound { IsSound watch.now }
    requires inside { IsInside grid.now.blocks watch.now }
    ensures heard { (h : Heard) → (result ≡ Ok h) ↔ IsHeard tables.now grid.now watch.now number h }
    ensures silent { (s : Silence) → (result ≡ Err s) ↔ IsSilence tables.now grid.now watch.now s }
    ensures found { result_ok result ≡ heard_at tables.now grid.now watch.now number }
    ensures answer { result ≡ answer_at tables.now grid.now watch.now number }
{
    let mut codes = Codes::new();
    hear_with(&mut codes, tables, watch, number, grid)
}

/// As `hear`, with the codes that a search by these tables has made so far: none is made again while it is kept.
pub fn hear_with(
    codes: &mut Codes,
    tables: &Tables,
    watch: &Watch,
    number: u32,
    grid: &Grid,
) -> Result<Heard, Silence>
    requires sound { IsSound watch.now }
    requires inside { IsInside grid.now.blocks watch.now }
    requires codes { AreOf tables.now codes.old }
    ensures heard { (h : Heard) → (result ≡ Ok h) ↔ IsHeard tables.now grid.now watch.now number h }
    ensures silent { (s : Silence) → (result ≡ Err s) ↔ IsSilence tables.now grid.now watch.now s }
    ensures found { result_ok result ≡ heard_at tables.now grid.now watch.now number }
    ensures answer { result ≡ answer_at tables.now grid.now watch.now number }
    ensures codes { AreOf tables.now codes.new }
{
    hear_core(codes, tables, watch, number, grid)
}

/// The same, stage by stage: the payload, then the format that it is of.
fn hear_core(
    codes: &mut Codes,
    tables: &Tables,
    watch: &Watch,
    number: u32,
    grid: &Grid,
) -> Result<Heard, Silence>
    requires sound { IsSound watch.now }
    requires inside { IsInside grid.now.blocks watch.now }
    requires codes { AreOf tables.now codes.old }
    ensures answer { IsAnswer tables.now grid.now watch.now number result }
    ensures tables { AreTables tables.now }
    ensures codes { AreOf tables.now codes.new }
{
    are_tables(tables);
    let payload = hear_payload(codes, tables, watch, grid)?;
    match read(watch, number, &payload) {
        Some(heard) => Ok(heard),
        None => Err(Silence::Format),
    }
}

/// Both tables are permutations, by their types.
fn are_tables(tables: &Tables)
    ensures { AreTables tables.now }
{
    let _reliability = tables.reliability.at(0);
    let _input_order = tables.input_order.at(0);
}

/// The payload that the grid carries: the bits of the candidate, without their scrambling, are the code of the payload with
/// its parity, masked by the handset's RNTI; or the stage that fails first.
fn hear_payload(
    codes: &mut Codes,
    tables: &Tables,
    watch: &Watch,
    grid: &Grid,
) -> Result<Payload, Silence>
    requires carrying { IsCarrying watch.now }
    requires inside { IsInside grid.now.blocks watch.now }
    requires codes { AreOf tables.now codes.old }
    ensures answer { IsPayloadAnswer tables.now grid.now watch.now result }
    ensures codes { AreOf tables.now codes.new }
{
    let references = &mut codes.references;
    let bits = match take_bits_with(references, grid, watch.symbol, &watch.regs, watch.dmrs_id) {
        Ok(bits) => scramble(&bits, watch.scramble),
        Err(bad) => return Err(Silence::Spot(bad)),
    };
    codes.turn_to(tables, watch);
    match codes.last().decode(&bits) {
        Ok(block) => match strip(&block, watch.rnti) {
            Some(payload) => Ok(payload),
            None => Err(Silence::Crc),
        },
        Err(NoWord::Repeat { at }) => Err(Silence::Repeat { at }),
        Err(NoWord::Frozen) => Err(Silence::Code),
    }
}

/// The formats, of which a payload is one at most.
const FORMATS: [Format; 5] = [
    Format::F00,
    Format::F10,
    Format::Order,
    Format::F01,
    Format::F11,
];

/// The format that a payload is of, with its shown fields; a payload is of one format at most.
fn read(watch: &Watch, number: u32, payload: &Payload) -> Option<Heard>
    requires sound { IsSound watch.now }
    requires size { length payload.now ≡ watch.now.size }
    ensures { MatchOption result ((h : Heard) → IsReadAs watch.now number payload.now h → ⊥)
        (IsReadAs watch.now number payload.now) }
{
    for format in FORMATS {
        if watch.fits(format) {
            if let Some(values) = fields_in(watch, format, payload) {
                return Some(Heard {
                    watch: number,
                    format,
                    values,
                });
            }
        }
    }
    None
}

/// The shown fields that a payload has in a format that fits the watch, where it is of that format.
fn fields_in(watch: &Watch, format: Format, payload: &Payload) -> Option<Values>
    requires sound { IsSound watch.now }
    requires fits { fits watch.now format ≡ true }
    requires size { length payload.now ≡ watch.now.size }
    ensures { (fields : List FieldValue) →
        (result ≡ Some fields) ↔ Carries (list_of watch.now format) format (length payload.now) payload.now fields }
{
    unpack(&watch.list(format), format, payload)
}
