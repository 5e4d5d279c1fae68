//! The Rust's push_conic: a conic becomes one line, or 1 to 64 quads that halving leaves. Every float that
//! is kept is computed in the order of the Rust. Whether a half is flat is mostly decided by squared lengths,
//! where they leave no doubt of what the Rust's lengths decide.

#![tactic(auto)]

ghost use Rattle.std.specs.Prelude.{◌≡◌, ℕ, ◌≤◌, ◌/◌, ◌%◌, length, map, get_or, ◌==◌};
ghost use Rattle.std.specs.Float.{binary32, nan};
ghost use Rattle.ieee.specs.Sqrt.{sqrt_of};
ghost use Rattle.conic.specs.Vectors.{point_in, pair, conic_in, halves_in, squares_of, IsNearnessOf};
ghost use Rattle.conic.specs.Conic.{is_line, lower_of, conic_mid, quad_mid, near_one_of, near_of, flat_of, half_weight_of, Halves, split_of};
ghost use Rattle.conic.specs.Halving.{is_one_quad, halve, count_of};

use geometry::Point;
use std::simd::prelude::*;

/// A rational quadratic: from one point to another, with a control and its weight.
#[derive(Clone, Copy)]
pub struct Conic {
    pub from: Point,
    pub ctrl: Point,
    pub to: Point,
    pub weight: f32,
}

/// Both halves of a conic, side by side: a vector holds a point of the left half and then one of the right. `left` has
/// where each half starts, which is the left half's start and end, and `right` where each ends.
#[derive(Clone, Copy)]
pub struct Subdivision {
    pub left: f32x4,
    pub ctrls: f32x4,
    pub right: f32x4,
}

/// Which of two halves are one quad by their middles.
#[derive(Drop)]
pub struct Nearness {
    pub left: bool,
    pub right: bool,
}

/// What a conic is drawn as: one line, or the quads of a curve.
#[derive(Clone, Copy)]
pub enum Lowered {
    Line(Point),
    Curve(Conic),
}

/// How often a conic is halved at most.
pub const MAX_DEPTH: usize = 6;

// Bounds outside which squared lengths decide: a distance whose square is below LESS times that of the chord
// is near, and one whose square is above MORE times it is not, however the product is rounded. In between,
// the roots round one way or the other.
const LESS: f32 = 9.99998e-7;

const MORE: f32 = 1.000002e-6;

// Whether a conic is one line: it has no curve, or no finite place for one.
#[tactic(auto, unfolding(crate::specs::Conic::is_line))]
fn is_line(c: Conic) -> bool
    ensures { result ≡ is_line c }
{
    let w = c.weight;
    if (0.0 < w) & (w < 1.0 / 0.0) {
        let places = [c.ctrl.x, c.ctrl.y, c.to.x, c.to.y];
        return !lanes::all_between(places, -1.0 / 0.0, 1.0 / 0.0);
    }
    true
}

/// The one rule of what a conic is drawn as: the need of a conic and its writing both go by it.
#[tactic(auto, unfolding(crate::specs::Conic::lower_of))]
pub fn lower(c: Conic) -> Lowered
    ensures { result ≡ lower_of c }
{
    if is_line(c) {
        let to = c.to;
        return Lowered::Line(to);
    }
    Lowered::Curve(c)
}

#[tactic(auto, unfolding(crate::specs::Conic::conic_mid))]
fn conic_mid(c: Conic) -> Point
    ensures { result ≡ conic_mid c }
{
    let w = c.weight;
    let sum = c.from + c.ctrl * (2.0 * w) + c.to;
    sum / (2.0 * (1.0 + w))
}

#[tactic(auto, unfolding(crate::specs::Conic::quad_mid))]
fn quad_mid(c: Conic) -> Point
    ensures { result ≡ quad_mid c }
{
    let sum = c.from + c.ctrl * 2.0 + c.to;
    sum * 0.25
}

/// Whether a weight is near 1. By two comparisons: the absolute value would keep a NaN apart.
pub fn is_near_one(w: f32) -> bool
    ensures { result ≡ near_one_of w }
{
    let over = w - 1.0;
    (over <= 0.001) & (-0.001 <= over)
}

// The root of each.
fn roots(x: f32x4) -> f32x4
    ensures { result ≡ map (sqrt_of binary32) x }
{
    let [a, b, c, d] = x.to_array();
    f32x4::from_array([ieee::sqrt(a), ieee::sqrt(b), ieee::sqrt(c), ieee::sqrt(d)])
}

/// Whether one quad is near enough to a conic.
#[tactic(auto, unfolding(crate::specs::Conic::flat_of))]
pub fn is_flat(c: Conic) -> bool
    ensures { result ≡ flat_of c }
{
    if is_near_one(c.weight) {
        return true;
    }
    let chord = (c.to - c.from).length();
    chord > 0.0 && (conic_mid(c) - quad_mid(c)).length() <= 0.001 * chord
}

/// The weight of both halves of a conic.
#[tactic(auto, unfolding(crate::specs::Conic::half_weight_of))]
pub fn half_weight(w: f32) -> f32
    ensures { result ≡ half_weight_of w }
{
    ieee::sqrt((1.0 + w) * 0.5)
}

/// A conic is two vectors, with its weight beside them. This is the first: its start and its target.
pub fn ends(c: Conic) -> f32x4
    ensures { result ≡ pair c.from c.to }
{
    f32x4::from_array([c.from.x, c.from.y, c.to.x, c.to.y])
}

/// The second: its control, twice.
pub fn ctrl(c: Conic) -> f32x4
    ensures { result ≡ pair c.ctrl c.ctrl }
{
    f32x4::from_array([c.ctrl.x, c.ctrl.y, c.ctrl.x, c.ctrl.y])
}

/// The conic in two such vectors and its weight.
pub fn of_vectors(ends: f32x4, ctrl: f32x4, weight: f32) -> Conic
    ensures { result ≡ conic_in ends ctrl weight }
{
    let [x0, y0, x2, y2] = ends.to_array();
    let [x1, y1, _, _] = ctrl.to_array();
    Conic {
        from: Point { x: x0, y: y0 },
        ctrl: Point { x: x1, y: y1 },
        to: Point { x: x2, y: y2 },
        weight,
    }
}

/// Both halves of a conic from and to the points in `ends`, at its middle parameter; `ctrl` begins with its control.
#[tactic(auto, unfolding(crate::specs::Conic::split_of))]
pub fn subdivide(ends: f32x4, ctrl: f32x4, w: f32) -> Subdivision
    ensures { halves_in result.left result.ctrls result.right (half_weight_of w)
        ≡ split_of (conic_in ends ctrl w) }
{
    let from = ends.swizzle([0, 1, 0, 1]);
    let to = ends.swizzle([2, 3, 2, 3]);
    let twice = ctrl.swizzle([0, 1, 0, 1]);
    let scale = 1.0 / (1.0 + w);
    let weighted = twice * f32x4::splat(w);
    let outer = ends.shuffle(weighted, [0, 1, 4, 5]) + weighted.shuffle(ends, [0, 1, 6, 7]);
    let sum = from + twice * f32x4::splat(2.0 * w) + to;
    let mid = sum * f32x4::splat(0.5 * scale);
    Subdivision {
        left: ends.shuffle(mid, [0, 1, 4, 5]),
        ctrls: outer * f32x4::splat(scale),
        right: mid.shuffle(ends, [0, 1, 6, 7]),
    }
}

// What bits 0 and 1 say, of the left half and the right.
#[inline(always)]
fn nearness_from_bits(bits: u64) -> Nearness
    ensures left { result.left ≡ (bits % 2 == 1) }
    ensures right { result.right ≡ (bits / 2 % 2 == 1) }
{
    Nearness {
        left: bits % 2 == 1,
        right: (bits >> 1) % 2 == 1,
    }
}

// Whether each half is near, by the lengths themselves: bit 0 says it of the left half, bit 1 of the right.
#[inline(always)]
fn near_by_roots(squares: f32x4) -> u64
    ensures left { (result % 2 == 1) ≡ near_of (get_or squares 0 nan) (get_or squares 2 nan) }
    ensures right { (result / 2 % 2 == 1) ≡ near_of (get_or squares 1 nan) (get_or squares 3 nan) }
{
    let lengths = roots(squares);
    let chords = lengths.swizzle([2, 3, 2, 3]);
    let near = lengths.simd_le(f32x4::splat(0.001) * chords) & f32x4::splat(0.0).simd_lt(chords);
    near.to_bitmask()
}

// Whether each half is near. Roots take long, and the squared lengths nearly always decide: the roots are taken
// only where they leave one of the halves open. NaNs decide nothing.
#[inline(always)]
fn near_by_squares(squares: f32x4) -> Nearness
    ensures { (h : Halves) → squares ≡ squares_of h → IsNearnessOf h result }
{
    let chords = squares.swizzle([2, 3, 2, 3]);
    let bounds = f32x4::from_array([LESS, LESS, MORE, MORE]) * chords;
    let lesser = squares.shuffle(bounds, [0, 1, 6, 7]);
    let greater = bounds.shuffle(squares, [0, 1, 4, 5]);
    // Strictly: a square that equals a rounded bound may be on either side of the bound itself.
    let tests = lesser.simd_lt(greater);
    let bits = tests.to_bitmask();
    // Bits 0 and 1 say near, bits 2 and 3 far, of the left half and the right: the sum is 3 where each half
    // has one of both.
    let decided = bits % 4 + (bits >> 2) == 3;
    if decided {
        return nearness_from_bits(bits);
    }
    nearness_from_bits(near_by_roots(squares))
}

/// Whether the middles of each half and of its quad are near each other, measured by a chord above 0.
pub fn is_near(left: f32x4, ctrls: f32x4, right: f32x4, u: f32) -> Nearness
    requires { point_in left 2 ≡ point_in right 0 }
    ensures { (h : Halves) → h ≡ halves_in left ctrls right u → IsNearnessOf h result }
{
    let sum = left + ctrls * f32x4::splat(2.0 * u) + right;
    let conic_mid = sum / f32x4::splat(2.0 * (1.0 + u));
    let quad_mid = (left + ctrls * f32x4::splat(2.0) + right) * f32x4::splat(0.25);
    let apart = conic_mid - quad_mid;
    let chord = right - left;
    let d = apart * apart;
    let c = chord * chord;
    near_by_squares(d.shuffle(c, [0, 2, 4, 6]) + d.shuffle(c, [1, 3, 5, 7]))
}

/// The second of two points, twice: the control of the right half, where a conic has its own.
pub fn second(v: f32x4) -> f32x4
    ensures { result ≡ pair (point_in v 2) (point_in v 2) }
{
    v.swizzle([2, 3, 2, 3])
}

// How many quads at most `depth` halvings leave of a conic, wherever its span starts; `one` says whether it is
// one.
fn count_quads(ends: f32x4, ctrl: f32x4, w: f32, depth: usize, one: bool) -> usize
    requires falling { depth ≤ 6 }
    requires one_quad { one ≡ is_one_quad depth (conic_in ends ctrl w) }
    ensures { (start : ℕ) → result ≡ length (halve depth (conic_in ends ctrl w) start) }
{
    if one {
        return 1;
    }
    let d = depth - 1;
    let h = subdivide(ends, ctrl, w);
    let u = half_weight(w);
    let right_ctrl = second(h.ctrls);
    let last = (d == 0) | is_near_one(u);
    let near = is_near(h.left, h.ctrls, h.right, u);
    count_quads(h.left, h.ctrls, u, d, last | near.left)
        + count_quads(h.right, right_ctrl, u, d, last | near.right)
}

/// How many quads a conic is drawn as: 1 to 64.
#[tactic(auto, unfolding(crate::specs::Halving::count_of, crate::specs::Halving::is_one_quad))]
pub fn count(c: Conic) -> usize
    ensures { result ≡ count_of c }
{
    let flat = is_flat(c);
    count_quads(ends(c), ctrl(c), c.weight, MAX_DEPTH, flat)
}
