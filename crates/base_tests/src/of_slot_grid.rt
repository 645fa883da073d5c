//! Points in the corners of the greatest grid, and the word of a block.
use slot_grid::{Grid, Point};
use std::test::Fail;

/// Places of the greatest grid, and the points there once the corners are written.
const PLACES: [(u8, u16, Point); 8] = [
    (0, 0, Point::P00),
    (0, 3299, Point::P01),
    (13, 0, Point::P10),
    (13, 3299, Point::P11),
    (0, 1, Point::Empty),
    (1, 0, Point::Empty),
    (12, 3299, Point::Empty),
    (13, 3298, Point::Empty),
];

#[test]
fn corners_and_their_neighbours(rt: HostRuntime) -> Result<(), Fail> {
    let mut grid = Grid::blank(rt.alloc(), 3, 1023, 79, 275)?;
    assert_eq!(rt; grid.get(13, 3299), Point::Empty);
    grid.put(0, 0, Point::P00);
    grid.put(0, 3299, Point::P01);
    grid.put(13, 0, Point::P10);
    grid.put(13, 3299, Point::P11);
    assert_eq!(rt;
        (grid.mu(), grid.frame(), grid.slot(), grid.blocks()),
        (3, 1023, 79, 275)
    );
    for (symbol, subcarrier, point) in PLACES {
        assert!(rt; symbol < 14 && subcarrier < 3300);
        assert_eq!(rt;
            grid.get(symbol, subcarrier),
            point,
            "{symbol} {subcarrier}"
        );
    }
    Ok(())
}

/// Points of block 5 in symbol 3.
const POINTS: [(u16, Point); 4] = [
    (60, Point::P10),
    (65, Point::P11),
    (66, Point::P00),
    (71, Point::P01),
];

#[test]
fn a_block_is_one_word(rt: HostRuntime) -> Result<(), Fail> {
    let mut grid = Grid::blank(rt.alloc(), 0, 0, 0, 6)?;
    for (subcarrier, point) in POINTS {
        assert!(rt; subcarrier < 72 && grid.blocks() == 6);
        grid.put(3, subcarrier, point);
    }
    assert!(rt; grid.blocks() == 6);
    let bits = 1 | 3 << 10 | 1 << 23;
    let there = 1 << 24 | 1 << 29 | 1 << 30 | 1 << 35;
    assert_eq!(rt; grid.block(3, 5), bits | there);
    assert_eq!(rt; grid.block(3, 4), 0);
    assert_eq!(rt; grid.block(2, 5), 0);
    Ok(())
}
