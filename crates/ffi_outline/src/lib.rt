//! Outlines for programs in C and Rust: drawing one, what an outline or a conic needs, and whether the
//! outline and the touch area of a shape are consistent. Shapes stand in 89 floats that the caller lends,
//! records in three whole numbers and four floats.

#![tactic(auto)]

ghost use Rattle.std.specs.Prelude.{◌≡◌, length};
ghost use Rattle.octant.specs.Octant.{point};
ghost use Rattle.ffi_path.specs.Lent.{path_answer};
ghost use Rattle.ffi_outline.specs.Outlines.{add_of, needed, numbers_of, outline_need_of, conic_need_of, consistency_of};

use calls::Call;
use conic_writer::Written;
use ffi_floats::WRONG_LENGTH;
use ffi_shape::{SHAPE_LENGTH, SIZES_LENGTH};
use geometry::Point;
use stream::Need;

const NEED_LENGTH: usize = 2;

/// Draws the outline of a shape behind what the record holds: 0, 1 or 5. It has no joint word.
pub fn shackletongue_add_to(
    shape: &[f32],
    counts: &mut [u64],
    places: &mut [f32],
    verbs: &mut [u8],
    points: &mut [f32],
) -> u32
    ensures { path_answer result counts.new places.new verbs.new points.new
        ≡ add_of shape.now counts.old places.old verbs.old points.old }
{
    let Some(shape) = shape.as_array::<SHAPE_LENGTH>() else {
        return WRONG_LENGTH;
    };
    let Some(b) = ffi_path::load(counts, places) else {
        return WRONG_LENGTH;
    };
    let a = outline::add_to(shape::layout::shape_at(shape), b, verbs, points);
    ffi_path::store_answer(counts, places, a.map(Written::from))
}

fn store_need(need: &mut [u64], n: Need)
    requires { length need.old ≡ 2 }
    ensures { need.new ≡ numbers_of n }
{
    need[0] = n.verbs as u64;
    need[1] = n.points as u64;
}

/// The verbs and the points that the outline of a shape adds.
pub fn shackletongue_outline_need(shape: &[f32], need: &mut [u64]) -> u32
    ensures { needed result need.new ≡ outline_need_of shape.now need.old }
{
    let Some(shape) = shape.as_array::<SHAPE_LENGTH>() else {
        return WRONG_LENGTH;
    };
    if need.len() != NEED_LENGTH {
        return WRONG_LENGTH;
    }
    store_need(need, outline_need::need(shape::layout::shape_at(shape)));
    0
}

/// The verbs and the points that a conic adds to the record, with the opening move of an empty one.
pub fn shackletongue_conic_need(
    counts: &[u64],
    places: &[f32],
    cx: f32,
    cy: f32,
    x: f32,
    y: f32,
    weight: f32,
    need: &mut [u64],
) -> u32
    ensures { needed result need.new
        ≡ conic_need_of counts.now places.now (point cx cy) (point x y) weight need.old }
{
    if need.len() != NEED_LENGTH {
        return WRONG_LENGTH;
    }
    let Some(held) = ffi_path::load(counts, places) else {
        return WRONG_LENGTH;
    };
    let call = Call::ConicTo(Point { x: cx, y: cy }, Point { x, y }, weight);
    store_need(need, calls::need(held, call));
    0
}

/// 1 where outline and touch area of the shape are consistent, else 0. The bounds are the first four of
/// the floats that the shape was made of.
pub fn shackletongue_is_consistent(sizes: &[f32], shape: &[f32]) -> u32
    ensures { result ≡ consistency_of sizes.now shape.now }
{
    if sizes.len() != SIZES_LENGTH {
        return WRONG_LENGTH;
    }
    let Some(shape) = shape.as_array::<SHAPE_LENGTH>() else {
        return WRONG_LENGTH;
    };
    u32::from(consistency::is_consistent(
        shape::layout::bounds_at(sizes),
        shape::layout::shape_at(shape),
    ))
}
