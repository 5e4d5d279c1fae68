//! One quarter of the outline: two octants of a corner that is solved round and stretched back.
//! Binary32 throughout, every operation rounded once, with the Rust's names and in its order.

#![tactic(auto)]

ghost use Rattle.std.specs.Prelude.{◌≡◌, true, map};
ghost use Rattle.quadrant.specs.Quadrant.{forward_scale_of, or_sign_of, frame_of, top_offset_of, right_offset_of, top_octant_of, right_octant_of, quadrant_with, quadrant_of, compute_quadrant_of, split_of, square_corner};

use geometry::Point;
use octant::{Octant, OctantFrame};

/// Two octants that meet on the diagonal.
#[derive(Clone, Copy)]
pub struct Quadrant {
    pub offset: Point,
    pub signed_scale: Point,
    pub top: Octant,
    pub right: Octant,
}

impl Quadrant {
    /// A degree that is a NaN is round.
    #[tactic(auto, unfolding(crate::specs::Quadrant::square_corner))]
    pub fn is_square(self) -> bool
        ensures { result ≡ square_corner self }
    {
        self.top.se_n < 2.0 || self.right.se_n < 2.0
    }
}

// A zero radius stretches nothing.
#[tactic(auto, unfolding(crate::specs::Quadrant::forward_scale_of))]
fn forward_scale(radii: Point, norm_radius: f32) -> Point
    ensures { result ≡ forward_scale_of radii norm_radius }
{
    if norm_radius == 0.0 {
        return Point { x: 1.0, y: 1.0 };
    }
    radii / norm_radius
}

// Only a NaN is replaced: an infinite scale stays.
#[tactic(auto, unfolding(crate::specs::Quadrant::or_sign_of))]
fn or_sign(raw: f32, sign: f32) -> f32
    ensures { result ≡ or_sign_of raw sign }
{
    if raw != raw {
        return sign;
    }
    raw
}

// Whether two floats are one: no NaN, and the same pattern, so that -0 is not +0.
fn is_one_float(x: f32, y: f32) -> bool
    ensures { result ≡ true → x ≡ y }
{
    if x != x {
        return false;
    }
    if y != y {
        return false;
    }
    f32::to_bits(x) == f32::to_bits(y)
}

/// A corner before its octants are solved: each half-extent as if the corner were round, and its radius.
#[derive(Clone, Copy)]
pub struct Frame {
    pub offset: Point,
    pub signed_scale: Point,
    pub half_size: Point,
    pub radius: f32,
}

/// A corner's frame, from the quadrant's center, the corner, its radii and the signs that stand in for a scale that
/// is a NaN.
#[tactic(auto, unfolding(crate::specs::Quadrant::frame_of))]
pub fn frame_of(center: Point, corner: Point, in_radii: Point, sign: Point) -> Frame
    ensures { result ≡ frame_of center corner in_radii sign }
{
    let corner_vector = corner - center;
    let radii = Point {
        x: ieee::min(ieee::abs(in_radii.x), ieee::abs(corner_vector.x)),
        y: ieee::min(ieee::abs(in_radii.y), ieee::abs(corner_vector.y)),
    };
    let norm_radius = ieee::min(radii.x, radii.y);
    let forward_scale = forward_scale(radii, norm_radius);
    let norm_half_size = corner_vector.abs() / forward_scale;
    let raw = corner_vector / norm_half_size;
    let signed_scale = Point {
        x: or_sign(raw.x, sign.x),
        y: or_sign(raw.y, sign.y),
    };
    Frame {
        offset: center,
        signed_scale,
        half_size: norm_half_size,
        radius: norm_radius,
    }
}

// The two octants' superellipses are offset by the same distance in opposite directions.
#[tactic(auto, unfolding(crate::specs::Quadrant::top_offset_of))]
fn top_offset(f: Frame) -> Point
    ensures { result ≡ top_offset_of f }
{
    let c = f.half_size.x - f.half_size.y;
    Point { x: 0.0, y: -c }
}

#[tactic(auto, unfolding(crate::specs::Quadrant::right_offset_of))]
fn right_offset(f: Frame) -> Point
    ensures { result ≡ right_offset_of f }
{
    let c = f.half_size.x - f.half_size.y;
    Point { x: c, y: 0.0 }
}

// The frames of a corner's two octants.
fn top_octant(f: Frame) -> OctantFrame
    ensures { result ≡ top_octant_of f }
{
    OctantFrame {
        center: top_offset(f),
        a: f.half_size.x,
        radius: f.radius,
    }
}

fn right_octant(f: Frame) -> OctantFrame
    ensures { result ≡ right_octant_of f }
{
    OctantFrame {
        center: right_offset(f),
        a: f.half_size.y,
        radius: f.radius,
    }
}

/// The quadrant of a corner with these octants.
fn quadrant_with(f: Frame, top: Octant, right: Octant) -> Quadrant
    ensures { result ≡ quadrant_with f top right }
{
    Quadrant {
        offset: f.offset,
        signed_scale: f.signed_scale,
        top,
        right,
    }
}

// The quadrant of a frame. Octants of the same half-extent differ in their offset alone, so one solve serves both.
#[tactic(auto, unfolding(crate::specs::Quadrant::quadrant_of))]
fn solve(f: Frame) -> Quadrant
    ensures { result ≡ quadrant_of f }
{
    if is_one_float(f.half_size.x, f.half_size.y) {
        let top = octant::compute_octant(top_offset(f), f.half_size.x, f.radius);
        return quadrant_with(f, top, octant::with_offset(top, right_offset(f)));
    }
    let [top, right] = octant::compute_octants([top_octant(f), right_octant(f)]);
    quadrant_with(f, top, right)
}

/// The quadrant of a corner, solved.
#[tactic(auto, using(crate::proofs::Framed::framed))]
pub fn compute_quadrant(center: Point, corner: Point, in_radii: Point, sign: Point) -> Quadrant
    ensures { result ≡ compute_quadrant_of center corner in_radii sign }
{
    solve(frame_of(center, corner, in_radii, sign))
}

/// Where two adjacent corners divide the side they share, in proportion to their radii.
#[tactic(auto, unfolding(crate::specs::Quadrant::split_of, crate::specs::Quadrant::both_zero))]
pub fn split(low: f32, high: f32, ratio_low: f32, ratio_high: f32) -> f32
    ensures { result ≡ split_of low high ratio_low ratio_high }
{
    if ratio_low == 0.0 && ratio_high == 0.0 {
        return (low + high) / 2.0;
    }
    (low * ratio_high + high * ratio_low) / (ratio_low + ratio_high)
}

/// The quadrants of four corners. All eight octants are solved in one batch, unless a corner is square: that one has
/// nothing to solve.
pub fn four_quadrants(f: [Frame; 4]) -> [Quadrant; 4]
    ensures { result ≡ map quadrant_of f }
{
    if lanes::all(f, |f| !(f.radius <= octant::CLOSE_ENOUGH)) {
        let [p, q, r, s] = f;
        let [
            p_top,
            p_right,
            q_top,
            q_right,
            r_top,
            r_right,
            s_top,
            s_right,
        ] = octant::round_octants([
            top_octant(p),
            right_octant(p),
            top_octant(q),
            right_octant(q),
            top_octant(r),
            right_octant(r),
            top_octant(s),
            right_octant(s),
        ]);
        return [
            quadrant_with(p, p_top, p_right),
            quadrant_with(q, q_top, q_right),
            quadrant_with(r, r_top, r_right),
            quadrant_with(s, s_top, s_right),
        ];
    }
    lanes::each(f, solve)
}
