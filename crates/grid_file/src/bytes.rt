//! Single characters of a text. Past its end they are read as 0, which no text has.
ghost use Rattle.std.specs.Prelude.{◌≡◌, ◌<◌, ◌↔◌, IsTrue, IfSome, length, slice_index};
ghost use Rattle.grid_file.specs.Bytes.{digit_of, point_byte, point_of};

use slot_grid::Point;

/// The byte at a place, 0 past the end.
fn byte_at(bytes: &[u8], place: usize) -> u8
    ensures { result ≡ slice_index bytes.now place }
{
    if place < bytes.len() { bytes[place] } else { 0 }
}

/// Whether the bytes have this byte at a place.
pub(crate) fn has(bytes: &[u8], place: usize, byte: u8) -> bool
    ensures { IsTrue result ↔ ((place < length bytes.now) × (slice_index bytes.now place ≡ byte)) }
{
    place < bytes.len() && bytes[place] == byte
}

/// The digit at a place.
pub(crate) fn digit_at(bytes: &[u8], place: usize) -> Option<u16>
    ensures value { result ≡ digit_of (slice_index bytes.now place) }
    ensures within { IfSome result (λ _. place < length bytes.now) }
{
    let byte = byte_at(bytes, place);
    if b'0' <= byte && byte <= b'9' {
        Some(u16::from(byte - b'0'))
    } else {
        None
    }
}

/// The point that the character at a place stands for.
pub(crate) fn point_in(bytes: &[u8], place: usize) -> Option<Point>
    ensures value { result ≡ point_of (slice_index bytes.now place) }
    ensures within { IfSome result (λ _. place < length bytes.now) }
{
    match byte_at(bytes, place) {
        b'.' => Some(Point::Empty),
        b'0' => Some(Point::P00),
        b'1' => Some(Point::P01),
        b'2' => Some(Point::P10),
        b'3' => Some(Point::P11),
        _ => None,
    }
}

/// The character of a point.
pub(crate) fn point_byte(point: Point) -> u8
    ensures { result ≡ point_byte point }
{
    match point {
        Point::Empty => b'.',
        Point::P00 => b'0',
        Point::P01 => b'1',
        Point::P10 => b'2',
        Point::P11 => b'3',
    }
}
