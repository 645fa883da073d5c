//! Runs over memory: the example's grid and report, which come from outside, and shelves and sinks that fail. What the
//! built program does with files, words and the exit status is shown by the cases beside the crates.
ghost use Rattle.std.specs.Prelude.{ℕ, List};

use crate::top::run;
use outside::{MemorySink, NamedBytes, Shelf};
use par_sweep::{Gate, OpenGate};
use run_steps::Status;
use std::alloc::{AllocError, Global};
use std::test::Fail;
use std::thread::Threads;

mod meeting;
mod narrow_sinks;
mod outcomes;
mod short_shelf;
mod sweeping;

/// The settings of the example.
const SETTINGS: &str =
    "{\"version\":1,\"cell\":500,\"mu\":1,\"blocks\":51,\"initial_downlink\":51,\"initial_uplink\":51,\"handsets\":[{\"name\":\"alpha\",\"rnti\":17,\"downlink\":{\"start\":0,\"size\":51},\"uplink\":{\"start\":0,\"size\":51},\"codebook\":\"semi_static\",\"coresets\":[{\"number\":1,\"groups\":\"111111110000000000000000000000000000000000000\",\"duration\":1}],\"sets\":[{\"number\":1,\"coreset\":1,\"kind\":\"common\",\"period\":1,\"offset\":0,\"symbols\":\"10000000000000\",\"candidates\":[0,0,0,1,0]}]}]}";

/// Its grants.
const GRANTS: &str =
    "{\"frame\":0,\"slot\":0,\"grants\":[{\"handset\":\"alpha\",\"set\":1,\"level\":8,\"format\":\"1_0\",\"fields\":{\"fdra\":101,\"tdra\":2,\"mcs\":10,\"ndi\":1,\"harq\":3,\"tpc\":1,\"pucch\":5,\"timing\":3}}]}";

/// The points of symbol 0 on subcarriers 0 to 575 with these settings and grants.
const POINTS: &str =
    "011131300033122211112021002002223101103220223232131010103312003211211031301033000030300230111310113312130312321210012321311032302022312012222000133221031233220003133202201111001200202013300100331020132023030322303100333022331021203230211033233210033003323122121330322123001221130300201321023023310310133203020001120100301232121233032213023223113232031022311131021333311023010102102331332220223030211333322122311011303221210331310331123100012332021011033221210031002312000320130101220223210100133232300133311312002331222211012330320101313032311321322111201232202211303113012221";

/// The text of a grid of 51 blocks with these points at the front of symbol 0.
fn grid(alloc: Global, points: &str) -> Result<String, AllocError> {
    let mut text = String::from_str(alloc, "nrpdcch grid 1\nmu 1 frame 0 slot 0 blocks 51\n")?;
    text.push_str(points)?;
    for symbol in 0..14u8 {
        let written = if symbol == 0 { points.len() } else { 0 };
        for _ in written..612 {
            text.push('.')?;
        }
        text.push('\n')?;
    }
    text.push_str("end\n")?;
    Ok(text)
}

/// The numbers below `count` in ascending order, with single spaces between.
fn table(alloc: Global, count: u16) -> Result<String, AllocError> {
    let mut text = String::new(alloc);
    for number in 0..count {
        let separator = if number == 0 { "" } else { " " };
        text.push_str(separator)?;
        text.push_str(format!(in alloc; "{number}")?.as_str())?;
    }
    Ok(text)
}

fn object(alloc: Global, name: &str, text: &str) -> Result<NamedBytes, AllocError> {
    Ok(NamedBytes {
        name: String::from_str(alloc, name)?,
        bytes: Vec::from_slice(alloc, text.as_bytes())?,
    })
}

/// The four files of a run: the settings of the example, the ascending tables, and the last file.
fn files(alloc: Global, last: &str) -> Result<Vec<NamedBytes>, AllocError> {
    let reliability = table(alloc, 1024)?;
    let input_order = table(alloc, 164)?;
    let mut objects = Vec::new(alloc);
    objects.push(object(alloc, "s", SETTINGS)?)?;
    objects.push(object(alloc, "r", reliability.as_str())?)?;
    objects.push(object(alloc, "i", input_order.as_str())?)?;
    objects.push(object(alloc, "g", last)?)?;
    Ok(objects)
}

/// The words of a line, which stand with single spaces between.
fn words(alloc: Global, line: &str) -> Result<Vec<String>, AllocError> {
    let mut list = Vec::new(alloc);
    for word in line.split(' ') {
        list.push(String::from_str(alloc, word)?)?;
    }
    Ok(list)
}

/// A sink with much room that takes each text whole.
fn sink(alloc: Global) -> Result<MemorySink, Fail> {
    Ok(MemorySink::new(alloc, 1_048_576, 1_048_576, Vec::new(alloc))?)
}

/// What a run left.
#[derive(Drop)]
struct Ran {
    status: Status,
    out: MemorySink,
    err: MemorySink,
}

/// Runs a line of words over a shelf into an output and an error output, with an open gate.
fn run_into<R: Threads + Sync, S: Shelf>(
    rt: &R,
    alloc: Global,
    line: &str,
    shelf: &mut S,
    sinks: (MemorySink, MemorySink),
) -> Result<Ran, Fail>
    requires { (name : List ℕ) → S.may shelf.old name }
{
    run_past(rt, alloc, &OpenGate, line, shelf, sinks)
}

/// Runs a line of words over a shelf into an output and an error output, with a gate for the searches.
fn run_past<R: Threads + Sync, G: Gate, S: Shelf>(
    rt: &R,
    alloc: Global,
    gate: &G,
    line: &str,
    shelf: &mut S,
    sinks: (MemorySink, MemorySink),
) -> Result<Ran, Fail>
    requires { (name : List ℕ) → S.may shelf.old name }
{
    let list = words(alloc, line)?;
    let (mut out, mut err) = sinks;
    let status = run(rt, alloc, gate, &list, shelf, &mut out, &mut err);
    Ok(Ran { status, out, err })
}
