//! Shapes for programs in C and Rust: a shape is made once, into floats that the caller lends, and asked
//! as often as is liked.

#![tactic(auto)]

ghost use Rattle.std.specs.Prelude.{◌≡◌, ◌+◌, ◌≤◌, length};
ghost use Rattle.octant.specs.Octant.{point};
ghost use Rattle.stream.specs.Stream.{put};
ghost use Rattle.shape.specs.Layout.{octant_floats, quadrant_floats, shape_floats, shape_at};
ghost use Rattle.ffi_shape.specs.Making.{shape_answer, make_of, holds_of};

use ffi_floats::WRONG_LENGTH;
use geometry::Point;
use octant::Octant;
use quadrant::Quadrant;
use shape::RoundSuperellipse;
use shape::layout::{bounds_at, radii_at};
use stream::put_point;

/// How many floats a shape is made of.
pub const SIZES_LENGTH: usize = 12;

/// How many floats a shape is.
pub const SHAPE_LENGTH: usize = 89;

// An octant to the floats from `at` on.
fn store_octant(floats: &mut [f32], at: usize, o: Octant)
    requires { at + 9 ≤ length floats.old }
    ensures { floats.new ≡ put floats.old at (octant_floats o) }
{
    let curve = Point {
        x: o.se_a,
        y: o.se_n,
    };
    put_point(floats, at, o.offset);
    put_point(floats, at + 2, curve);
    put_point(floats, at + 4, o.circle_start);
    put_point(floats, at + 6, o.circle_center);
    floats[at + 8] = o.circle_max_angle;
}

// A quadrant to the floats from `at` on.
fn store_quadrant(floats: &mut [f32], at: usize, q: Quadrant)
    requires { at + 22 ≤ length floats.old }
    ensures { floats.new ≡ put floats.old at (quadrant_floats q) }
{
    put_point(floats, at, q.offset);
    put_point(floats, at + 2, q.signed_scale);
    store_octant(floats, at + 4, q.top);
    store_octant(floats, at + 13, q.right);
}

// A shape to its floats, from which it is read back.
fn store_shape(floats: &mut [f32; 89], s: RoundSuperellipse)
    ensures floats { floats.new ≡ shape_floats s }
    ensures read_back { shape_at floats.new ≡ s }
{
    store_quadrant(floats, 0, s.top_right);
    store_quadrant(floats, 22, s.bottom_right);
    store_quadrant(floats, 44, s.bottom_left);
    store_quadrant(floats, 66, s.top_left);
    floats[88] = f32::from(s.all_corners_same);
}

/// Makes a shape of min, max and the radii top left, top right, bottom left, bottom right, into 89
/// floats. 0, or the refusal's number; the shape's floats change only with a 0.
#[tactic(auto, using(crate::proofs::Answers::wrong_sizes, crate::proofs::Answers::wrong_shape))]
pub fn shackletongue_shape(sizes: &[f32], shape: &mut [f32]) -> u32
    ensures { shape_answer result shape.new ≡ make_of sizes.now shape.old }
{
    if sizes.len() != SIZES_LENGTH {
        return WRONG_LENGTH;
    }
    let Some(shape) = shape.as_mut_array::<SHAPE_LENGTH>() else {
        return WRONG_LENGTH;
    };
    match RoundSuperellipse::new(bounds_at(sizes), radii_at(sizes)) {
        Ok(s) => {
            store_shape(shape, s);
            0
        }
        Err(error) => u32::from(error.number()),
    }
}

/// 1 where the shape contains the point, 0 where not.
pub fn shackletongue_contains(shape: &[f32], x: f32, y: f32) -> u32
    ensures { result ≡ holds_of shape.now (point x y) }
{
    let Some(shape) = shape.as_array::<SHAPE_LENGTH>() else {
        return WRONG_LENGTH;
    };
    u32::from(containment::floats::contains(shape, Point { x, y }))
}
