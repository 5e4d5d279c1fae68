//! Reading for programs in C and Rust: the segment at a cursor, and the box. Record, cursor, segment and
//! box stand in numbers that the caller lends.

#![tactic(auto)]

ghost use Rattle.std.specs.Prelude.{◌≡◌, ◌≤◌, List, Float, length};
ghost use Rattle.stream.specs.Stream.{put};
ghost use Rattle.reader.specs.Reading.{item_of, reading_of, floats_from};
ghost use Rattle.reader.specs.Bounds.{bounds_reading};
ghost use Rattle.ffi_reader.specs.Segments.{kind_of, read_answer, cursor_numbers, cursor_at, read_by, read_of, box_answer, rect_floats, box_by, box_of};

use ffi_floats::{NONE, WRONG_LENGTH};
use reader::{Cursor, ReadError, Rect, Segment};

// The lengths that C lends (include/shackletongue.h).
const CURSOR_LENGTH: usize = 3;

const SEGMENT_LENGTH: usize = 6;

const RECT_LENGTH: usize = 4;

const PLACE_LENGTH: usize = 1;

// The kind of a segment, a number because C reads it (include/shackletongue.h).
fn kind_of(s: Segment) -> u64
    ensures { (d : Cursor) → result ≡ kind_of (item_of s d) }
{
    match s {
        Segment::Move(_) => 0,
        Segment::Line(_) => 1,
        Segment::Quad(_, _) => 2,
        Segment::Cubic(_, _, _) => 3,
        Segment::Close => 4,
        Segment::End => 5,
    }
}

// The floats that a segment consumes, to the first of the lent ones. One by one: they are few, and `copy_from_slice`
// would need a memmove from outside.
fn store_part(segment: &mut [f32], part: &[f32])
    requires { length part.now ≤ length segment.old }
    ensures { segment.new ≡ put segment.old 0 part.now }
{
    for (i, x) in part.iter().enumerate() {
        segment[i] = *x;
    }
}

fn store_cursor(cursor: &mut [u64], next: Cursor, kind: u64)
    requires { length cursor.old ≡ 3 }
    ensures { cursor.new ≡ cursor_numbers next kind }
{
    cursor[0] = next.verb as u64;
    cursor[1] = next.point as u64;
    cursor[2] = kind;
}

#[tactic(auto, unfolding(crate::specs::Segments::cursor_at))]
fn cursor_at(cursor: &[u64]) -> Cursor
    requires { length cursor.now ≡ 3 }
    ensures { result ≡ cursor_at cursor.now }
{
    Cursor {
        verb: cursor[0] as usize,
        point: cursor[1] as usize,
    }
}

// The number of a reading, whose floats were stored. Its cursor and its kind go to the lent numbers.
fn store_reading(cursor: &mut [u64], a: Result<(Segment, Cursor), ReadError>) -> u32
    requires { length cursor.old ≡ 3 }
    ensures { (floats : List Float)
        → read_answer result cursor.new (put floats 0 (floats_from (reading_of a)))
        ≡ read_by (reading_of a) cursor.old floats }
{
    match a {
        Ok((s, next)) => {
            store_cursor(cursor, next, kind_of(s));
            0
        }
        Err(e) => u32::from(e.number()),
    }
}

/// Reads the segment at the cursor: 0, 1 or 6. The part of the floats that it consumes is copied. The cursor moves
/// to the next segment and gets the kind of this one (0 move, 1 line, 2 quad, 3 cubic, 4 close, 5 end).
pub fn shackletongue_read(
    counts: &[u64],
    places: &[f32],
    verbs: &[u8],
    points: &[f32],
    cursor: &mut [u64],
    segment: &mut [f32],
) -> u32
    ensures { read_answer result cursor.new segment.new
        ≡ read_of counts.now places.now verbs.now points.now cursor.old segment.old }
{
    if cursor.len() != CURSOR_LENGTH {
        return WRONG_LENGTH;
    }
    if segment.len() != SEGMENT_LENGTH {
        return WRONG_LENGTH;
    }
    let Some(b) = ffi_path::load(counts, places) else {
        return WRONG_LENGTH;
    };
    let at = cursor_at(cursor);
    let (reading, part) = reader::read_both(b, verbs, points, at);
    store_part(segment, part);
    store_reading(cursor, reading)
}

fn store_rect(rect: &mut [f32], r: Rect)
    requires { length rect.old ≡ 4 }
    ensures { rect.new ≡ rect_floats r }
{
    rect[0] = r.min.x;
    rect[1] = r.min.y;
    rect[2] = r.max.x;
    rect[3] = r.max.y;
}

// The number of a box, or of none. A box goes to the lent floats.
fn store_box(rect: &mut [f32], place: &mut [u64], a: Result<Option<Rect>, ReadError>) -> u32
    requires rect { length rect.old ≡ 4 }
    requires place { length place.old ≡ 1 }
    ensures { box_answer result rect.new place.new ≡ box_by (bounds_reading a) rect.old place.old }
{
    match a {
        Ok(Some(r)) => {
            store_rect(rect, r);
            0
        }
        Ok(None) => NONE,
        Err(e) => {
            let number = u32::from(e.number());
            let ReadError::Malformed(at) = e else {
                return number;
            };
            place[0] = at as u64;
            number
        }
    }
}

/// The least box round all points: 0, 1 or 6, and then the index of the verb goes to the place. 101 where
/// there is no finite point.
pub fn shackletongue_box(
    counts: &[u64],
    places: &[f32],
    verbs: &[u8],
    points: &[f32],
    rect: &mut [f32],
    place: &mut [u64],
) -> u32
    ensures { box_answer result rect.new place.new
        ≡ box_of counts.now places.now verbs.now points.now rect.old place.old }
{
    if rect.len() != RECT_LENGTH {
        return WRONG_LENGTH;
    }
    if place.len() != PLACE_LENGTH {
        return WRONG_LENGTH;
    }
    let Some(b) = ffi_path::load(counts, places) else {
        return WRONG_LENGTH;
    };
    store_box(rect, place, reader::bounds(b, verbs, points))
}
