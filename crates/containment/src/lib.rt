//! Whether a shape contains a point, by the curve itself. It refuses nothing: a NaN follows IEEE comparison.
//! Binary32 throughout, every operation rounded once, with the Rust's names and in its order.

#![tactic(auto)]

ghost use Rattle.std.specs.Prelude.{◌≡◌, ◌&&◌, ◌||◌, if◌then◌else◌};
ghost use Rattle.std.specs.Float.Ieee.{lt};
ghost use Rattle.ieee.specs.Basic.{abs_of};
ghost use Rattle.ieee.specs.Binary32.{zero};
ghost use Rattle.octant.specs.Octant.{point};
ghost use Rattle.containment.specs.Contains.{octant_contains_of, within, square_contains, round_contains, norm_contains, corner_contains_of, contains_of};
ghost use Rattle.containment.specs.Parts.{in_superellipse, asks_powers};
ghost use Rattle.containment.specs.QuickReject.{squared_distances, beyond_arc, quick_reject_of, beyond_arcs, is_surely_outside, quick_rejects_of};

use geometry::Point;
use octant::Octant;
use quadrant::Quadrant;
use shape::RoundSuperellipse;
use std::simd::prelude::*;

pub mod floats;

// Whether a point is inside a superellipse of the half-extent a and the degree n, its border included. Its floats come
// one by one: a point would be packed into one word and taken apart again.
#[tactic(auto, unfolding(crate::specs::Parts::in_superellipse))]
fn superellipse_contains(x: f32, y: f32, a: f32, n: f32) -> bool
    ensures { result ≡ in_superellipse (point x y) a n }
{
    let p_se = Point { x, y } / a;
    let [x_power, y_power] = exponential::powers([p_se.x, p_se.y], [n, n]);
    x_power + y_power <= 1.0
}

// Whether p lies in the octant and before the circle's start.
#[tactic(auto, unfolding(crate::specs::Parts::asks_powers))]
fn asks_powers(param: Octant, p: Point) -> bool
    ensures { result ≡ asks_powers param p }
{
    if p.x < 0.0 {
        return false;
    }
    if p.y < 0.0 {
        return false;
    }
    if p.y < p.x {
        return false;
    }
    p.x <= param.circle_start.x
}

// Whether p is inside the octant's arc; true for any point outside the octant.
#[tactic(auto, unfolding(crate::specs::Contains::octant_contains_of, crate::specs::Parts::in_superellipse))]
fn octant_contains(param: Octant, p: Point) -> bool
    ensures { result ≡ octant_contains_of param p }
{
    if p.x < 0.0 {
        return true;
    }
    if p.y < 0.0 {
        return true;
    }
    if p.y < p.x {
        return true;
    }
    if p.x <= param.circle_start.x {
        return superellipse_contains(p.x, p.y, param.se_a, param.se_n);
    }
    let circle_radius = param.circle_start.distance_squared(param.circle_center);
    (p - param.circle_center).length_squared() < circle_radius
}

// A square corner owns its top and left borders, where the scale is negative, but not its bottom and right ones.
#[tactic(auto, unfolding(crate::specs::Contains::within))]
fn is_within(delta: f32, scale: f32) -> bool
    ensures { result ≡ within delta scale }
{
    if delta > 0.0 {
        return true;
    }
    delta == 0.0 && scale < 0.0
}

// Whether a point in the quadrant's own space is inside both edges of a square corner.
#[tactic(auto, unfolding(crate::specs::Contains::square_contains))]
fn square_contains(param: Quadrant, norm_point: Point) -> bool
    ensures { result ≡ square_contains param norm_point }
{
    let x_delta = param.right.offset.x + param.right.se_a - norm_point.x;
    let y_delta = param.top.offset.y + param.top.se_a - norm_point.y;
    is_within(x_delta, param.signed_scale.x) && is_within(y_delta, param.signed_scale.y)
}

// Whether a point in the quadrant's own space is inside both octants' arcs. The top octant's powers are asked for
// here, and the right one's in `octant_contains`: called from two places, they are compiled apart from the tests,
// which then are compiled in place.
#[tactic(auto, using(crate::proofs::Asking::asked), unfolding(crate::specs::Contains::round_contains))]
fn round_contains(param: Quadrant, norm_point: Point) -> bool
    ensures { result ≡ round_contains param norm_point }
{
    let from_top = norm_point - param.top.offset;
    let from_right = norm_point - param.right.offset;
    let flipped = Point {
        x: from_right.y,
        y: from_right.x,
    };
    if asks_powers(param.top, from_top) {
        if superellipse_contains(from_top.x, from_top.y, param.top.se_a, param.top.se_n) {
            return octant_contains(param.right, flipped);
        }
        return false;
    }
    octant_contains(param.top, from_top) && octant_contains(param.right, flipped)
}

#[tactic(auto, unfolding(crate::specs::Contains::norm_contains))]
fn norm_contains(param: Quadrant, norm_point: Point) -> bool
    ensures { result ≡ norm_contains param norm_point }
{
    if param.is_square() {
        return square_contains(param, norm_point);
    }
    round_contains(param, norm_point)
}

// Whether a corner is asked for points of its own quadrant alone, and this is none.
fn is_passed_over(p: Point, check_quadrant: bool) -> bool
    ensures { result ≡ (check_quadrant && (lt p.x zero || lt p.y zero)) }
{
    if check_quadrant {
        return p.x < 0.0 || p.y < 0.0;
    }
    false
}

// A coordinate mirrored into the quadrant, unless it is asked for points of its own alone. One coordinate at a time: a
// point that is one of two would go through memory.
fn mirrored(x: f32, check_quadrant: bool) -> f32
    ensures { result ≡ (if check_quadrant then x else abs_of x) }
{
    if check_quadrant {
        return x;
    }
    ieee::abs(x)
}

// Whether the corner holds p: any point outside its quadrant, or p mirrored into it. One call of `norm_contains`, so
// that it is compiled in place and no record is copied for it.
fn corner_contains(param: Quadrant, p: Point, check_quadrant: bool) -> bool
    ensures { result ≡ corner_contains_of param p check_quadrant }
{
    let norm_point = (p - param.offset) / param.signed_scale;
    if is_passed_over(norm_point, check_quadrant) {
        return true;
    }
    let own_point = Point {
        x: mirrored(norm_point.x, check_quadrant),
        y: mirrored(norm_point.y, check_quadrant),
    };
    norm_contains(param, own_point)
}

/// Whether the shape contains p: all corners hold it, or the one that describes all four.
#[tactic(auto, unfolding(crate::specs::Contains::contains_of))]
pub fn contains(shape: RoundSuperellipse, p: Point) -> bool
    ensures { result ≡ contains_of shape p }
{
    if shape.all_corners_same {
        return corner_contains(shape.top_right, p, false);
    }
    corner_contains(shape.top_right, p, true)
        && corner_contains(shape.bottom_right, p, true)
        && corner_contains(shape.bottom_left, p, true)
        && corner_contains(shape.top_left, p, true)
}

/// What a corner's circular arcs ask of a point, for a quick test: most points outside lie beyond an arc. A vector's
/// first two numbers are the top octant's and its last two the right one's, whose x and y are exchanged, so that one
/// test serves both.
#[derive(Clone, Copy)]
pub struct QuickReject {
    pub offset: Point,
    pub signed_scale: Point,
    // The octants' offsets.
    pub from: f32x4,
    pub center: f32x4,
    // Where the circle starts, and its squared radius.
    pub bounds: f32x4,
    // A flag, and no enum round the vectors: `touch` takes the offset of a square corner too, and the flag is one of
    // the tests that `is_beyond_arcs` makes with no branch between them.
    pub is_round: bool,
}

// The squared distances of two points from two others, each as the second number of a pair.
fn squared_distances(p: f32x4, q: f32x4) -> f32x4
    ensures { result ≡ squared_distances p q }
{
    let apart = p - q;
    let squares = apart * apart;
    squares.swizzle([1, 0, 3, 2]) + squares
}

// What one corner asks.
fn quick_reject_of(q: Quadrant) -> QuickReject
    ensures { result ≡ quick_reject_of q }
{
    let top = q.top;
    let right = q.right;
    let start = f32x4::from_array([
        top.circle_start.x,
        top.circle_start.y,
        right.circle_start.x,
        right.circle_start.y,
    ]);
    let center = f32x4::from_array([
        top.circle_center.x,
        top.circle_center.y,
        right.circle_center.x,
        right.circle_center.y,
    ]);
    QuickReject {
        offset: q.offset,
        signed_scale: q.signed_scale,
        from: f32x4::from_array([top.offset.x, top.offset.y, right.offset.y, right.offset.x]),
        center,
        bounds: start.shuffle(squared_distances(start, center), [0, 5, 2, 7]),
        is_round: !q.is_square(),
    }
}

/// What each corner asks: top right, bottom right, top left, bottom left.
#[tactic(auto, unfolding(crate::specs::QuickReject::quick_rejects_of))]
pub fn quick_rejects(shape: RoundSuperellipse) -> [QuickReject; 4]
    ensures { result ≡ quick_rejects_of shape }
{
    let top_right = quick_reject_of(shape.top_right);
    let bottom_right = quick_reject_of(shape.bottom_right);
    let top_left = quick_reject_of(shape.top_left);
    let bottom_left = quick_reject_of(shape.bottom_left);
    [top_right, bottom_right, top_left, bottom_left]
}

// Whether a point in a corner's own space lies beyond an arc of one of its octants, by the bits of a number: which of
// the comparisons decides is hard to foresee.
fn is_beyond_either(from: f32x4, center: f32x4, bounds: f32x4, n: Point) -> bool
    ensures { result ≡ (beyond_arc from center bounds 0 n
        || beyond_arc from center bounds 2 (point n.y n.x)) }
{
    let own = f32x4::from_array([n.x, n.y, n.y, n.x]) - from;
    let d = squared_distances(own, center);
    let ordered = f32x4::splat(0.0).shuffle(own, [0, 4, 2, 6]).simd_le(own);
    let past = bounds.simd_lt(own.shuffle(d, [0, 5, 2, 7]));
    // Bits 0 and 1 are both set where n lies beyond the top octant's arc, bits 2 and 3 where beyond the right one's.
    let bits = (ordered & past).to_bitmask();
    bits & (bits >> 1) & 5 != 0
}

// The same of a corner that is round; no point lies beyond the arcs of a square one.
#[tactic(auto, unfolding(crate::specs::QuickReject::beyond_arcs))]
fn is_beyond_arcs(a: QuickReject, n: Point) -> bool
    ensures { result ≡ beyond_arcs a n }
{
    a.is_round & is_beyond_either(a.from, a.center, a.bounds, n)
}

// The same of a quadrant, whose numbers are taken out here: a round corner does not hold such a point.
fn is_beyond(q: Quadrant, n: Point) -> bool
    ensures { result ≡ beyond_arcs (quick_reject_of q) n }
{
    is_beyond_arcs(quick_reject_of(q), n)
}

/// Whether p lies beyond an arc of the corner. Then the shape does not contain it; `same` says whether the corner
/// describes all four.
#[tactic(auto, unfolding(crate::specs::QuickReject::is_surely_outside))]
pub fn is_surely_outside(a: QuickReject, same: bool, p: Point) -> bool
    ensures { result ≡ is_surely_outside a same p }
{
    let n = (p - a.offset) / a.signed_scale;
    if same {
        return is_beyond_arcs(a, n.abs());
    }
    !((n.x < 0.0) | (n.y < 0.0)) & is_beyond_arcs(a, n)
}
