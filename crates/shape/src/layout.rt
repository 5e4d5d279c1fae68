//! How a shape stands in floats: 89, field by field; and the bounds and radii that it is made of: 12.

ghost use Rattle.std.specs.Prelude.{◌≡◌, ◌+◌, ◌≤◌, length};
ghost use Rattle.shape.specs.Layout.{octant_at, quadrant_at, shape_at, bounds_at, radii_at, ShapesReadBack};

use crate::{Bounds, CornerRadii, RoundSuperellipse};
use geometry::point_at;
use octant::Octant;
use quadrant::Quadrant;

/// The octant whose floats begin at `at`.
#[tactic(auto, unfolding(crate::specs::Layout::octant_at))]
pub fn octant_at(floats: &[f32], at: usize) -> Octant
    requires { at + 9 ≤ length floats.now }
    ensures { result ≡ octant_at floats.now at }
{
    Octant {
        offset: point_at(floats, at),
        se_a: floats[at + 2],
        se_n: floats[at + 3],
        circle_start: point_at(floats, at + 4),
        circle_center: point_at(floats, at + 6),
        circle_max_angle: floats[at + 8],
    }
}

/// The quadrant whose floats begin at `at`.
#[tactic(auto, unfolding(crate::specs::Layout::quadrant_at))]
pub fn quadrant_at(floats: &[f32], at: usize) -> Quadrant
    requires { at + 22 ≤ length floats.now }
    ensures { result ≡ quadrant_at floats.now at }
{
    Quadrant {
        offset: point_at(floats, at),
        signed_scale: point_at(floats, at + 2),
        top: octant_at(floats, at + 4),
        right: octant_at(floats, at + 13),
    }
}

/// The shape in its floats.
#[tactic(auto, unfolding(crate::specs::Layout::shape_at))]
pub fn shape_at(shape: &[f32; 89]) -> RoundSuperellipse
    ensures { result ≡ shape_at shape.now }
{
    RoundSuperellipse {
        top_right: quadrant_at(shape, 0),
        bottom_right: quadrant_at(shape, 22),
        bottom_left: quadrant_at(shape, 44),
        top_left: quadrant_at(shape, 66),
        all_corners_same: shape[88] != 0.0,
    }
}

/// The bounds among the floats that a shape is made of.
#[tactic(auto, unfolding(crate::specs::Layout::bounds_at))]
pub fn bounds_at(sizes: &[f32]) -> Bounds
    requires { length sizes.now ≡ 12 }
    ensures { result ≡ bounds_at sizes.now }
{
    Bounds {
        min: point_at(sizes, 0),
        max: point_at(sizes, 2),
    }
}

/// The radii among them.
#[tactic(auto, unfolding(crate::specs::Layout::radii_at))]
pub fn radii_at(sizes: &[f32]) -> CornerRadii
    requires { length sizes.now ≡ 12 }
    ensures { result ≡ radii_at sizes.now }
{
    CornerRadii {
        top_left: point_at(sizes, 4),
        top_right: point_at(sizes, 6),
        bottom_left: point_at(sizes, 8),
        bottom_right: point_at(sizes, 10),
    }
}

/// Every shape is read back from the floats that it is stored as.
pub fn shapes_read_back()
    ensures { ShapesReadBack }
{}
