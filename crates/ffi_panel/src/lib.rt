//! Panel files for programs in C and Rust: the records one by one, read and written, and where touches go. A place
//! is whole numbers that the caller lends: an offset, an index or a count goes there.

#![tactic(auto)]

ghost use Rattle.std.specs.Prelude.{◌≡◌, length};
ghost use Rattle.octant.specs.Octant.{point};
ghost use Rattle.ffi_panel.specs.Asking.{place_left, slices_left, record_floats, record_of, record_in, put_of, WrittenIsRead, place_of_touch, places_of_touches};
ghost use Rattle.std.specs.Result.{result_ok};
ghost use Rattle.panel_file.specs.Panel.{kind_of};

use ffi_floats::{NONE, WRONG_LENGTH};
use geometry::Point;
use panel_file::{BROKEN, Button, Kind, Record};
use stream::{point_at, put_point};
use touch::MOST_TOUCHES;

// A record's place holds an offset and a kind; its floats are at most a button's.
const RECORD_PLACE: usize = 2;

const RECORD_FLOATS: usize = 12;

// The refusal of what does not fit, as the building calls have it.
const NO_ROOM: u32 = 5;

// A touch's place holds an index, a count or an offset.
const TOUCH_PLACE: usize = 1;

fn store_button(floats: &mut [f32], b: Button)
    requires { length floats.old ≡ 12 }
    ensures { floats.new ≡ record_floats (Record.Button b) floats.old }
{
    let [p, q, r, s, t, u] = b.points();
    put_point(floats, 0, p);
    put_point(floats, 2, q);
    put_point(floats, 4, r);
    put_point(floats, 6, s);
    put_point(floats, 8, t);
    put_point(floats, 10, u);
}

#[tactic(auto, unfolding(crate::specs::Asking::record_floats))]
fn store_record(floats: &mut [f32], record: Record)
    requires { length floats.old ≡ 12 }
    ensures { floats.new ≡ record_floats «record» floats.old }
{
    match record {
        Record::Button(b) => store_button(floats, b),
        Record::Touch(p) => put_point(floats, 0, p),
    }
}

// The kind of a number, as C writes it (include/shackletongue.h).
fn kind_in(number: u64) -> Option<Kind>
    ensures { result ≡ result_ok (kind_of number) }
{
    match u16::try_from(number) {
        Ok(n) => Kind::try_from(n).ok(),
        Err(_) => None,
    }
}

#[tactic(auto, unfolding(crate::specs::Asking::record_in))]
fn load_record(kind: Kind, floats: &[f32]) -> Record
    requires { length floats.now ≡ 12 }
    ensures { result ≡ record_in kind floats.now }
{
    match kind {
        Kind::Button => Record::Button(Button::from_points([
            point_at(floats, 0),
            point_at(floats, 2),
            point_at(floats, 4),
            point_at(floats, 6),
            point_at(floats, 8),
            point_at(floats, 10),
        ])),
        Kind::Touch => Record::Touch(point_at(floats, 0)),
    }
}

/// The record at the offset in place[0]: then place is the offset of the next one and the kind, 1 button,
/// 2 touch, 0 at the end of the file; its 12 or 2 floats go to the front of floats. With a 7,
/// place[0] is the offset of the first broken record.
pub fn shackletongue_record(file: &[u8], place: &mut [u64], floats: &mut [f32]) -> u32
    ensures { slices_left result place.new floats.new ≡ record_of file.now place.old floats.old }
{
    if place.len() != RECORD_PLACE {
        return WRONG_LENGTH;
    }
    if floats.len() != RECORD_FLOATS {
        return WRONG_LENGTH;
    }
    match panel_file::record_at(file, place[0] as usize) {
        Ok(Some((record, next))) => {
            place[0] = next as u64;
            place[1] = u64::from(record.kind().number());
            store_record(floats, record);
            0
        }
        Ok(None) => {
            place[1] = 0;
            0
        }
        Err(broken) => {
            place[0] = broken.offset as u64;
            u32::from(broken.number())
        }
    }
}

/// Writes the record of the kind in place[1], of a button's 12 floats or in front of them a touch's two, at the offset
/// in place[0], which becomes the one behind it. 7 where the kind is neither; 5 where the record does not end within
/// the file and within 65,536 bytes.
pub fn shackletongue_put_record(file: &mut [u8], place: &mut [u64], floats: &[f32]) -> u32
    ensures { slices_left result place.new file.new ≡ put_of file.old place.old floats.now }
{
    if place.len() != RECORD_PLACE {
        return WRONG_LENGTH;
    }
    if floats.len() != RECORD_FLOATS {
        return WRONG_LENGTH;
    }
    let Some(kind) = kind_in(place[1]) else {
        return u32::from(BROKEN);
    };
    let record = load_record(kind, floats);
    match panel_file::put_record(file, place[0] as usize, record) {
        Some(end) => {
            place[0] = end as u64;
            0
        }
        None => NO_ROOM,
    }
}

/// What `shackletongue_put_record` wrote, `shackletongue_record` reads.
pub fn written_records_are_read()
    ensures { WrittenIsRead }
{}

/// The index of the last button that contains the point, which lies on top, goes to place[0]. 101 where the touch goes
/// nowhere; with a 7, place[0] is the offset of the first broken record.
pub fn shackletongue_touch(file: &[u8], x: f32, y: f32, place: &mut [u64]) -> u32
    ensures { place_left result place.new ≡ place_of_touch file.now (point x y) place.old }
{
    if place.len() != TOUCH_PLACE {
        return WRONG_LENGTH;
    }
    match touch::touch(file, Point { x, y }) {
        Ok(Some(index)) => {
            place[0] = index as u64;
            0
        }
        Ok(None) => NONE,
        Err(broken) => {
            place[0] = broken.offset as u64;
            u32::from(broken.number())
        }
    }
}

/// `shackletongue_touch` for every touch of the file, in file order, each shape made once: the indices
/// go to the front of the 5,461 results, 0xffffffff for nowhere, and how many there are to place[0]. With
/// a 7, place[0] is the offset of the first broken record.
pub fn shackletongue_touch_all(file: &[u8], results: &mut [u32], place: &mut [u64]) -> u32
    ensures { slices_left result place.new results.new
        ≡ places_of_touches file.now results.old place.old }
{
    let Some(results) = results.as_mut_array::<MOST_TOUCHES>() else {
        return WRONG_LENGTH;
    };
    if place.len() != TOUCH_PLACE {
        return WRONG_LENGTH;
    }
    match touch::touch_all(file, results) {
        Ok(n) => {
            place[0] = n as u64;
            0
        }
        Err(broken) => {
            place[0] = broken.offset as u64;
            u32::from(broken.number())
        }
    }
}
