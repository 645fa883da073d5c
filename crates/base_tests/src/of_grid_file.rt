//! Faults whose places a second program worked out from the sets of numbers alone, and a grid that a second program made.

use grid_file::{GridError, GridFault, read_grid, write_grid};
use slot_grid::{Grid, Point};
use std::alloc::{AllocError, Global};
use std::test::Fail;

/// The fault at a place.
fn fault(at: usize) -> Option<GridError> {
    Some(GridError::Fault(GridFault { at }))
}

/// The fault of a text.
fn fault_of(alloc: Global, text: &[u8]) -> Option<GridError> {
    read_grid(alloc, text).err()
}

/// Beginnings of texts and what else begins like one, with the places where they leave every grid's text.
const BEGINNINGS: [(&str, usize); 36] = [
    ("", 0),
    ("NRPDCCH", 0),
    ("nrpdcch grid 2", 13),
    ("nrpdcch grid 10", 14),
    ("nrpdcch grid 1\r\n", 14),
    ("nrpdcch grid 1\nmu -1", 18),
    ("nrpdcch grid 1\nmu 01 frame 0", 19),
    ("nrpdcch grid 1\nmu 4 frame 0", 18),
    ("nrpdcch grid 1\nmu 12 frame 0", 19),
    ("nrpdcch grid 1\nmu 1  frame 0", 20),
    ("nrpdcch grid 1\nmu 1 frame 1024 slot", 29),
    ("nrpdcch grid 1\nmu 1 frame 1023 slot 20 blocks", 37),
    ("nrpdcch grid 1\nmu 1 frame 2000 slot 1", 29),
    ("nrpdcch grid 1\nmu 1 frame 00 slot", 27),
    ("nrpdcch grid 1\nmu 1 frame  0", 26),
    ("nrpdcch grid 1\nmu 1 frame slot", 26),
    ("nrpdcch grid 1\nmu 1 frame 10230", 30),
    ("nrpdcch grid 1\nmu 1 frame 0 slot 0 blocks 51", 44),
    ("nrpdcch grid 1\nmu 1 frame 0 slot 19 blocks 276\n", 45),
    ("nrpdcch grid 1\nmu 1 frame 0 slot 20 blocks 51\n", 34),
    ("nrpdcch grid 1\nmu 0 frame 0 slot 10 blocks 51\n", 34),
    ("nrpdcch grid 1\nmu 0 frame 0 slot 9 blocks 0\n", 42),
    ("nrpdcch grid 1\nmu 2 frame 9 slot 39 blocks 5\n", 44),
    ("nrpdcch grid 1\nmu 2 frame 9 slot 40 blocks 6\n", 34),
    ("nrpdcch grid 1\nmu 3 frame 9 slot 79 blocks 275\n", 47),
    ("nrpdcch grid 1\nmu 3 frame 9 slot 80 blocks 275\n", 34),
    ("nrpdcch grid 1\nmu 3 frame 9 slot 05 blocks 6\n", 34),
    ("nrpdcch grid 1\nmu 3 frame 9 slot 8 blocks 06\n", 42),
    ("nrpdcch grid 1\nmu 3 frame 9 slot 8 blocks 2751\n", 45),
    ("nrpdcch grid 1\nmu 3 frame 9 slot 8 blocks 27\n", 45),
    ("nrpdcch grid 1\nmu 3 frame 9 slot 8 blocks 28\n", 45),
    ("nrpdcch grid 1\nmu 3 frame 9 slot 8 blocks 280\n", 44),
    ("nrpdcch grid 1\nmu 3 frame 9 slot 8 blocks 6 \n", 43),
    ("nrpdcch grid 1\nmu 3 frame 9 slot 8 blocks 1\n", 43),
    ("nrpdcch grid 1\nmu 3 frame 9 slot 8 blocks\n", 41),
    ("nrpdcch grid 1\nmu 3 frame 9 slot 8 blocks 1000\n", 45),
];

#[test]
fn heads_that_leave_every_text(rt: HostRuntime) -> Result<(), Fail> {
    for (text, at) in BEGINNINGS {
        let found = fault_of(rt.alloc(), text.as_bytes());
        assert_eq!(rt; found, fault(at), "{text}");
    }
    Ok(())
}

/// The points of symbol 0 on subcarriers 0 to 575; no other place has one.
const POINTS: &str =
    "011131300033122211112021002002223101103220223232131010103312003211211031301033000030300230111310113312130312321210012321311032302022312012222000133221031233220003133202201111001200202013300100331020132023030322303100333022331021203230211033233210033003323122121330322123001221130300201321023023310310133203020001120100301232121233032213023223113232031022311131021333311023010102102331332220223030211333322122311011303221210331310331123100012332021011033221210031002312000320130101220223210100133232300133311312002331222211012330320101313032311321322111201232202211303113012221";

/// The text of a grid with these points.
fn text(alloc: Global) -> Result<Vec<u8>, AllocError> {
    let mut text = Vec::from_slice(alloc, b"nrpdcch grid 1\nmu 1 frame 0 slot 0 blocks 51\n")?;
    text.extend_from_slice(POINTS.as_bytes())?;
    for symbol in 0..14u8 {
        for _ in (if symbol == 0 { 576 } else { 0u16 })..612 {
            text.push(b'.')?;
        }
        text.push(b'\n')?;
    }
    text.extend_from_slice(b"end\n")?;
    Ok(text)
}

#[test]
fn the_text_of_a_grid(rt: HostRuntime) -> Result<(), Fail> {
    let alloc = rt.alloc();
    let text = text(alloc)?;
    let Ok(grid) = read_grid(alloc, &text) else {
        return Err(Fail::new("not read"));
    };
    assert!(rt; grid.mu() == 1 && grid.frame() == 0 && grid.slot() == 0 && grid.blocks() == 51);
    let places = [
        (0, 0, Point::P00),
        (0, 1, Point::P01),
        (0, 4, Point::P11),
        (0, 13, Point::P10),
        (0, 575, Point::P01),
        (0, 576, Point::Empty),
        (13, 611, Point::Empty),
    ];
    for (symbol, subcarrier, point) in places {
        assert!(rt; symbol < 14 && subcarrier < 612);
        assert!(rt;
            grid.get(symbol, subcarrier) == point,
            "{symbol} {subcarrier}"
        );
    }
    let Ok(written) = write_grid(alloc, &grid) else {
        return Err(Fail::new("not written"));
    };
    assert_eq!(rt; written.as_slice(), text.as_slice());
    Ok(())
}

#[test]
fn a_byte_changed_or_the_text_cut(rt: HostRuntime) -> Result<(), Fail> {
    let alloc = rt.alloc();
    let mut text = text(alloc)?;
    assert!(rt; text.len() == 8631);
    for at in [
        0, 1, 14, 15, 18, 26, 33, 42, 44, 45, 656, 657, 1000, 8626, 8627, 8630,
    ] {
        assert!(rt; at < text.len());
        let found = fault_of(alloc, &text[..at]);
        assert_eq!(rt; found, fault(at), "cut at {at}");
        let byte = text[at];
        text[at] = b'x';
        assert_eq!(rt; fault_of(alloc, &text), fault(at), "x at {at}");
        text[at] = byte;
    }
    text.push(b'\n')?;
    assert_eq!(rt; fault_of(alloc, &text), fault(8631));
    Ok(())
}

/// The text of a grid with no point has 8,799 bytes where it has 52 blocks.
#[test]
fn a_grid_with_no_point(rt: HostRuntime) -> Result<(), Fail> {
    let alloc = rt.alloc();
    let Ok(grid) = Grid::blank(alloc, 1, 0, 0, 52) else {
        return Err(Fail::new("no grid"));
    };
    let mut text = Vec::from_slice(alloc, b"nrpdcch grid 1\nmu 1 frame 0 slot 0 blocks 52\n")?;
    for _ in 0..14u8 {
        for _ in 0..624u16 {
            text.push(b'.')?;
        }
        text.push(b'\n')?;
    }
    text.extend_from_slice(b"end\n")?;
    let Ok(written) = write_grid(alloc, &grid) else {
        return Err(Fail::new("not written"));
    };
    assert_eq!(rt; written.len(), 8799);
    assert_eq!(rt; written.as_slice(), text.as_slice());
    Ok(())
}

/// The byte of a place of the full grid.
fn full_byte(place: usize) -> u8 {
    match place % 5 {
        0 => b'.',
        1 => b'0',
        2 => b'1',
        3 => b'2',
        _ => b'3',
    }
}

/// The text of a grid of 275 blocks with points all over.
fn full_text(alloc: Global) -> Result<Vec<u8>, AllocError> {
    let head = b"nrpdcch grid 1\nmu 3 frame 1023 slot 79 blocks 275\n";
    let mut text = Vec::from_slice(alloc, head)?;
    for symbol in 0..14usize {
        for subcarrier in 0..3300usize {
            text.push(full_byte(symbol + subcarrier))?;
        }
        text.push(b'\n')?;
    }
    text.extend_from_slice(b"end\n")?;
    Ok(text)
}

#[test]
fn the_text_of_the_greatest_grid(rt: HostRuntime) -> Result<(), Fail> {
    let alloc = rt.alloc();
    let text = full_text(alloc)?;
    let grid = read_grid(alloc, &text)?;
    assert!(rt;
        grid.mu() == 3 && grid.frame() == 1023 && grid.slot() == 79 && grid.blocks() == 275
    );
    let places = [
        (0, 0, Point::Empty),
        (0, 1, Point::P00),
        (1, 1, Point::P01),
        (13, 0, Point::P10),
        (0, 3299, Point::P11),
        (13, 3299, Point::P01),
    ];
    for (symbol, subcarrier, point) in places {
        assert!(rt; symbol < 14 && subcarrier < 3300);
        assert_eq!(rt; grid.get(symbol, subcarrier), point);
    }
    assert!(rt; write_grid(alloc, &grid)? == text);
    Ok(())
}
