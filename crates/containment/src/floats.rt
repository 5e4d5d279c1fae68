//! The same of a shape that stands in floats: only those are read that the answer needs, and no record is copied.

ghost use Rattle.std.specs.Prelude.{◌≡◌, true, false, ◌+◌, ◌*◌, ◌<◌, ◌≤◌};
ghost use Rattle.octant.specs.Octant.{point};
ghost use Rattle.shape.specs.Layout.{quadrant_at, shape_at};
ghost use Rattle.containment.specs.Contains.{round_contains, norm_contains, corner_contains_of, contains_of};
ghost use Rattle.containment.specs.Floats.{own_points, own_answers, asked_hold, corners_hold};

use crate::{is_beyond, octant_contains, square_contains};
use geometry::Point;
use shape::layout::{octant_at, quadrant_at};
use std::simd::prelude::*;

// Whether the round corner whose floats begin at `at` holds a point in its own space. The right octant is read only
// where the top one holds the point.
#[inline(always)]
#[tactic(auto, unfolding(shape::specs::Layout::quadrant_at, crate::specs::Contains::round_contains))]
fn octants_hold(shape: &[f32; 89], at: usize, n: Point) -> bool
    requires { at + 22 ≤ 89 }
    ensures { result ≡ round_contains (quadrant_at shape.now at) n }
{
    let top = octant_at(shape, at + 4);
    if octant_contains(top, n - top.offset) {
        let right = octant_at(shape, at + 13);
        let q = n - right.offset;
        return octant_contains(right, Point { x: q.y, y: q.x });
    }
    false
}

// The same. Most points outside lie beyond one of the corner's arcs, which is tested first and without branches:
// which of the octants' tests decides is hard to foresee.
#[inline(always)]
fn round_holds(shape: &[f32; 89], at: usize, n: Point) -> bool
    requires { at + 22 ≤ 89 }
    ensures { result ≡ round_contains (quadrant_at shape.now at) n }
{
    if is_beyond(quadrant_at(shape, at), n) {
        return false;
    }
    octants_hold(shape, at, n)
}

// Whether the corner whose floats begin at `at` holds a point in its own space. Compiled apart, it reads the floats
// that it needs, and no record is copied for it.
#[inline(never)]
fn norm_holds(shape: &[f32; 89], at: usize, x: f32, y: f32) -> bool
    requires { at + 22 ≤ 89 }
    ensures { result ≡ norm_contains (quadrant_at shape.now at) (point x y) }
{
    let corner = quadrant_at(shape, at);
    if corner.is_square() {
        return square_contains(corner, Point { x, y });
    }
    round_holds(shape, at, Point { x, y })
}

// A point in the own space of the corner whose floats begin at `at`, and in that of the next.
fn own_points(shape: &[f32; 89], at: usize, p: Point) -> f32x4
    requires { at + 44 ≤ 89 }
    ensures { result ≡ own_points shape.now at p }
{
    let offset = f32x4::from_array([shape[at], shape[at + 1], shape[at + 22], shape[at + 23]]);
    let scale = f32x4::from_array([shape[at + 2], shape[at + 3], shape[at + 24], shape[at + 25]]);
    (f32x4::from_array([p.x, p.y, p.x, p.y]) - offset) / scale
}

// Whether each corner that is asked, by the bits of a number, holds its own of the points (x, y).
fn asked_hold(shape: &[f32; 89], x: [f32; 4], y: [f32; 4], asked: u64) -> bool
    requires { asked < 16 }
    ensures { result ≡ asked_hold (own_answers shape.now x y) asked }
{
    if asked == 0 {
        return true;
    }
    let k = asked.trailing_zeros() as usize;
    norm_holds(shape, 22 * k, x[k], y[k]) && asked_hold(shape, x, y, asked & (asked - 1))
}

// Whether each corner in whose quadrant the point lies holds it. Most points lie in one: no branch decides which,
// since it is hard to foresee.
fn corners_hold(shape: &[f32; 89], p: Point) -> bool
    ensures { result ≡ corners_hold shape.now p true 4 0 }
{
    let a = own_points(shape, 0, p);
    let b = own_points(shape, 44, p);
    let x = a.shuffle(b, [0, 2, 4, 6]);
    let y = a.shuffle(b, [1, 3, 5, 7]);
    let zero = f32x4::splat(0.0);
    let passed_over = (x.simd_lt(zero) | y.simd_lt(zero)).to_bitmask();
    asked_hold(shape, x.to_array(), y.to_array(), 15 - passed_over)
}

// Whether the one corner that describes all four holds the point. Round corners, nearly all, are asked in place.
fn same_holds(shape: &[f32; 89], p: Point) -> bool
    ensures { result ≡ corner_contains_of (quadrant_at shape.now 0) p false }
{
    let corner = quadrant_at(shape, 0);
    let n = ((p - corner.offset) / corner.signed_scale).abs();
    if corner.is_square() {
        return norm_holds(shape, 0, n.x, n.y);
    }
    round_holds(shape, 0, n)
}

/// Whether the shape in these floats contains p.
#[inline(always)]
pub fn contains(shape: &[f32; 89], p: Point) -> bool
    ensures { result ≡ contains_of (shape_at shape.now) p }
{
    if shape[88] == 0.0 {
        return corners_hold(shape, p);
    }
    same_holds(shape, p)
}
