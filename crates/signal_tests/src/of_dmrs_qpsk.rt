//! Points and bits from outside.
ghost use Rattle.std.specs.Prelude.{◌≡◌, ℕ, ◌<◌, length};
ghost use Rattle.coreset_map.specs.RegOrder.{reg_at, AreRegs};

use arrayvec::ArrayVec;
use bits_core::Coded;
use coreset_map::Reg;
use dmrs_qpsk::{BadPlace, Flaw, References, put_bits, reference_point, take_bits, take_bits_with};
use slot_grid::Grid;
use slot_grid::Point::{self, Empty, P00, P01, P10, P11};
use std::test::Fail;

/// The REGs of eight CCEs: blocks 0 to 47 of one symbol.
pub fn eight_cces() -> ArrayVec<Reg, 96>
    ensures order { AreRegs result.items }
    ensures size { length result.items ≡ 48 }
    ensures places { (j : ℕ) → j < length result.items
        → ((reg_at result.items j).symbol ≡ 0) × ((reg_at result.items j).block < 48) }
{
    let mut regs = ArrayVec::new();
    for block in 0..48 {
        regs.push(Reg { symbol: 0, block });
    }
    regs
}

/// Slot, symbol, scrambling identity and block, and the three reference points.
const REFERENCES: [(u16, u8, u16, u16, [Point; 3]); 5] = [
    (0, 0, 500, 0, [P01, P01, P00]),
    (0, 0, 500, 7, [P00, P00, P11]),
    (19, 2, 65535, 274, [P01, P10, P11]),
    (79, 13, 0, 100, [P10, P00, P10]),
    (5, 1, 7, 3, [P10, P11, P01]),
];

#[test]
fn known_reference_points(rt: HostRuntime) {
    for (slot, symbol, id, block, points) in REFERENCES {
        assert!(rt; slot < 80 && symbol < 14 && block < 275);
        for k in 0..3u8 {
            let point = reference_point(slot, symbol, id, block, k);
            assert_eq!(rt; point, points[usize::from(k)], "slot {slot}");
        }
    }
}

/// The first 36 coded bits of a candidate, here repeated for each two of its REGs.
const BITS: &[u8; 36] = b"000010000111011101000010000101011100";

/// What those bits leave on blocks 0 and 7 of slot 0, symbol 0, for the identity 500.
const BLOCK_0: [Point; 12] = [P00, P01, P00, P10, P00, P01, P01, P11, P01, P00, P11, P01];

const BLOCK_7: [Point; 12] = [P00, P00, P00, P10, P00, P00, P01, P01, P01, P11, P11, P00];

/// A symbol, the first subcarrier of a block, and the points of the block.
const BLOCKS: [(u8, u16, [Point; 12]); 3] = [
    (0, 0, BLOCK_0),
    (0, 84, BLOCK_7),
    (1, 0, [Empty; 12]),
];

/// The bits of a text of zeros and ones, over and over, 864 in all.
fn repeated(text: &[u8; 36]) -> Coded
    ensures { length result ≡ 864 }
{
    let mut bits = Coded::new();
    for at in 0..864 {
        bits.push(text[at % 36] == b'1');
    }
    bits
}

#[test]
fn bits_on_a_blank_grid(rt: HostRuntime) -> Result<(), Fail> {
    let mut grid = Grid::blank(rt.alloc(), 0, 0, 0, 48)?;
    put_bits(&mut grid, 0, &eight_cces(), 500, &repeated(BITS));
    assert!(rt; grid.blocks() == 48);
    for (symbol, first, points) in BLOCKS {
        for (subcarrier, point) in (first..).zip(points) {
            assert!(rt; symbol < 14 && subcarrier < 576);
            assert_eq!(rt;
                grid.get(symbol, subcarrier),
                point,
                "{symbol} {subcarrier}"
            );
        }
    }
    Ok(())
}

/// Points written in symbol 0 over those of the bits, with the identity 500, and the first bad place then.
///
/// Subcarriers 1, 5 and 9 of block 0 have the reference points `P01`, `P01` and `P00`.
const CHANGES: [([(u16, Point); 2], u16, Flaw); 7] = [
    ([(1, P00), (1, P00)], 1, Flaw::Reference),
    ([(1, Empty), (1, Empty)], 1, Flaw::Reference),
    ([(0, Empty), (0, Empty)], 0, Flaw::Empty),
    ([(575, Empty), (575, Empty)], 575, Flaw::Empty),
    ([(13, Empty), (9, P11)], 9, Flaw::Reference),
    ([(9, P11), (8, Empty)], 8, Flaw::Empty),
    ([(300, Empty), (299, Empty)], 299, Flaw::Empty),
];

#[test]
fn bits_put_are_taken(rt: HostRuntime) -> Result<(), Fail> {
    let regs = eight_cces();
    let bits = repeated(BITS);
    let mut grid = Grid::blank(rt.alloc(), 0, 0, 0, 51)?;
    put_bits(&mut grid, 0, &regs, 500, &bits);
    assert!(rt; take_bits(&grid, 0, &regs, 500) == Ok(bits));
    Ok(())
}

#[test]
fn kept_references_change_no_answer(rt: HostRuntime) -> Result<(), Fail> {
    let regs = eight_cces();
    let mut grid = Grid::blank(rt.alloc(), 0, 0, 0, 51)?;
    put_bits(&mut grid, 0, &regs, 500, &repeated(BITS));
    let mut references = References::new();
    let first = take_bits_with(&mut references, &grid, 0, &regs, 500);
    let other = take_bits_with(&mut references, &grid, 0, &regs, 501);
    let again = take_bits_with(&mut references, &grid, 0, &regs, 500);
    assert!(rt; first == Ok(repeated(BITS)));
    assert!(rt; other == take_bits(&grid, 0, &regs, 501));
    assert!(rt; again == Ok(repeated(BITS)));
    Ok(())
}

#[test]
fn other_data_points_are_other_bits(rt: HostRuntime) -> Result<(), Fail> {
    let regs = eight_cces();
    let mut grid = Grid::blank(rt.alloc(), 0, 0, 0, 51)?;
    put_bits(&mut grid, 0, &regs, 500, &repeated(BITS));
    grid.put(0, 2, P01);
    grid.put(0, 575, P10);
    let mut bits = repeated(BITS);
    bits.set(3, true);
    bits.set(862, true);
    assert!(rt; take_bits(&grid, 0, &regs, 500) == Ok(bits));
    Ok(())
}

#[test]
fn first_bad_place_is_named(rt: HostRuntime) -> Result<(), Fail> {
    let regs = eight_cces();
    for (changes, subcarrier, flaw) in CHANGES {
        let mut grid = Grid::blank(rt.alloc(), 0, 0, 0, 51)?;
        put_bits(&mut grid, 0, &regs, 500, &repeated(BITS));
        for (at, point) in changes {
            assert!(rt; at < 576 && grid.blocks() == 51);
            grid.put(0, at, point);
        }
        assert!(rt; grid.blocks() == 51);
        let bad = BadPlace {
            symbol: 0,
            subcarrier,
            flaw,
        };
        assert!(rt; take_bits(&grid, 0, &regs, 500) == Err(bad), "{subcarrier}");
    }
    Ok(())
}
