//! The building calls for programs in C and Rust: the record stands in numbers that the caller lends,
//! three whole ones (verb count, point count, joint word) and four floats (the contour's start, the
//! pen), beside the two buffers. Every call returns 0, or the number of its refusal, and then no slice has
//! changed.

#![tactic(auto)]

ghost use Rattle.std.specs.Prelude.{◌≡◌, List, ℕ, Float};
ghost use Rattle.calls.specs.Calls.{conic_outcome_of};
ghost use Rattle.ffi_path.specs.Lent.{point, HoldsRecord, record_in, counts_of, places_of, path_answer, answer_by, lent_step};

use calls::{BuildError, Call};
use conic_writer::Written;
use ffi_floats::WRONG_LENGTH;
use geometry::Point;
use stream::Builder;

/// The record in the lent numbers, where the slices have the lengths of one.
pub fn load(counts: &[u64], places: &[f32]) -> Option<Builder>
    ensures { result ≡ record_in counts.now places.now }
{
    let [verbs, points, _] = counts else {
        return None;
    };
    let [start_x, start_y, pen_x, pen_y] = places else {
        return None;
    };
    Some(Builder {
        verbs: *verbs as usize,
        points: *points as usize,
        start: Point {
            x: *start_x,
            y: *start_y,
        },
        pen: Point {
            x: *pen_x,
            y: *pen_y,
        },
    })
}

// A record and its joint word to the lent numbers.
fn store(counts: &mut [u64], places: &mut [f32], w: Written)
    requires { HoldsRecord counts.old places.old }
    ensures counts { counts.new ≡ counts_of w.builder w.word }
    ensures places { places.new ≡ places_of w.builder }
{
    let b = w.builder;
    counts[0] = b.verbs as u64;
    counts[1] = b.points as u64;
    counts[2] = w.word;
    places[0] = b.start.x;
    places[1] = b.start.y;
    places[2] = b.pen.x;
    places[3] = b.pen.y;
}

/// The number of an answer. An accepted call's record and joint word go to the lent numbers.
pub fn store_answer(counts: &mut [u64], places: &mut [f32], a: Result<Written, BuildError>) -> u32
    requires { HoldsRecord counts.old places.old }
    ensures { (vs : List ℕ) (fs : List Float)
        → path_answer result counts.new places.new vs fs
        ≡ answer_by (conic_outcome_of a vs fs) counts.old places.old }
{
    match a {
        Ok(w) => {
            store(counts, places, w);
            0
        }
        Err(e) => u32::from(e.number()),
    }
}

/// A move. Six functions, and no generic one: C needs each with its own parameters, and what a closure lends is not
/// known after its call where it may not have been called (tried).
pub fn shackletongue_move_to(
    counts: &mut [u64],
    places: &mut [f32],
    verbs: &mut [u8],
    points: &mut [f32],
    x: f32,
    y: f32,
) -> u32
    ensures { path_answer result counts.new places.new verbs.new points.new
        ≡ lent_step (Call.MoveTo (point x y))
        counts.old places.old verbs.old points.old }
{
    let Some(b) = load(counts, places) else {
        return WRONG_LENGTH;
    };
    let a = calls::move_to(b, verbs, points, Point { x, y }).map(Written::from);
    store_answer(counts, places, a)
}

/// A line.
pub fn shackletongue_line_to(
    counts: &mut [u64],
    places: &mut [f32],
    verbs: &mut [u8],
    points: &mut [f32],
    x: f32,
    y: f32,
) -> u32
    ensures { path_answer result counts.new places.new verbs.new points.new
        ≡ lent_step (Call.LineTo (point x y))
        counts.old places.old verbs.old points.old }
{
    let Some(b) = load(counts, places) else {
        return WRONG_LENGTH;
    };
    let a = calls::line_to(b, verbs, points, Point { x, y }).map(Written::from);
    store_answer(counts, places, a)
}

/// A quadratic with the control (cx, cy).
pub fn shackletongue_quad_to(
    counts: &mut [u64],
    places: &mut [f32],
    verbs: &mut [u8],
    points: &mut [f32],
    cx: f32,
    cy: f32,
    x: f32,
    y: f32,
) -> u32
    ensures { path_answer result counts.new places.new verbs.new points.new
        ≡ lent_step (Call.QuadTo (point cx cy) (point x y))
        counts.old places.old verbs.old points.old }
{
    let Some(b) = load(counts, places) else {
        return WRONG_LENGTH;
    };
    let a = calls::quad_to(b, verbs, points, Point { x: cx, y: cy }, Point { x, y }).map(
        Written::from,
    );
    store_answer(counts, places, a)
}

/// A conic with the control (cx, cy). The joint word is the third of the counts.
pub fn shackletongue_conic_to(
    counts: &mut [u64],
    places: &mut [f32],
    verbs: &mut [u8],
    points: &mut [f32],
    cx: f32,
    cy: f32,
    x: f32,
    y: f32,
    weight: f32,
) -> u32
    ensures { path_answer result counts.new places.new verbs.new points.new
        ≡ lent_step (Call.ConicTo (point cx cy) (point x y) weight)
        counts.old places.old verbs.old points.old }
{
    let Some(b) = load(counts, places) else {
        return WRONG_LENGTH;
    };
    let a = calls::conic_to(
        b,
        verbs,
        points,
        Point { x: cx, y: cy },
        Point { x, y },
        weight,
    );
    store_answer(counts, places, a)
}

/// A cubic with the controls (ax, ay) and (bx, by).
pub fn shackletongue_cubic_to(
    counts: &mut [u64],
    places: &mut [f32],
    verbs: &mut [u8],
    points: &mut [f32],
    ax: f32,
    ay: f32,
    bx: f32,
    by: f32,
    x: f32,
    y: f32,
) -> u32
    ensures { path_answer result counts.new places.new verbs.new points.new
        ≡ lent_step (Call.CubicTo (point ax ay) (point bx by) (point x y))
        counts.old places.old verbs.old points.old }
{
    let Some(b) = load(counts, places) else {
        return WRONG_LENGTH;
    };
    let a = calls::cubic_to(
        b,
        verbs,
        points,
        Point { x: ax, y: ay },
        Point { x: bx, y: by },
        Point { x, y },
    )
    .map(Written::from);
    store_answer(counts, places, a)
}

/// A close.
pub fn shackletongue_close(
    counts: &mut [u64],
    places: &mut [f32],
    verbs: &mut [u8],
    points: &mut [f32],
) -> u32
    ensures { path_answer result counts.new places.new verbs.new points.new
        ≡ lent_step Call.Close
        counts.old places.old verbs.old points.old }
{
    let Some(b) = load(counts, places) else {
        return WRONG_LENGTH;
    };
    let a = calls::close(b, verbs, points).map(Written::from);
    store_answer(counts, places, a)
}
