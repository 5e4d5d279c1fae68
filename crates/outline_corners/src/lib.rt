//! What the outline of a shape draws, as placed points: a corner is two lines, or two octants of two conics and a cubic
//! each. An octant's curves are solved once, wherever they are placed.

#![tactic(auto)]

ghost use Rattle.std.specs.Prelude.{◌≡◌, true, false};
ghost use Rattle.outline_corners.specs.Corners.{curves_of, placement_of, placed_conic, placed_cubic, forwards_calls, backwards_calls, next_of, square_calls, round_calls, whole_scale, any_square, calls_by_curves, corner_calls, equal_corners, unequal_corners, corners_of, start_point};
ghost use Rattle.outline_corners.specs.Calls.{conic_call, cubic_call, calls_forwards, calls_backwards, calls_of, call_lists, drawing_of, outline_of};

use geometry::Point;
use octant::Octant;
use octant_curves::{Placement, SuperellipseConics};
use quadrant::Quadrant;
use shape::RoundSuperellipse;

/// What is drawn of an octant, in its own space.
#[derive(Clone, Copy)]
pub struct Curves {
    pub circle: [Point; 4],
    pub conics: SuperellipseConics,
}

// Of both octants of a corner.
#[derive(Drop)]
struct BothCurves {
    top: Curves,
    right: Curves,
}

/// A conic from the pen.
#[derive(Clone, Copy)]
pub struct ConicArc {
    pub ctrl: Point,
    pub to: Point,
    pub weight: f32,
}

/// A cubic from the pen.
#[derive(Clone, Copy)]
pub struct CubicArc {
    pub c0: Point,
    pub c1: Point,
    pub to: Point,
}

/// What is drawn of an octant: forwards, from the flat side on, the conics and then the cubic; backwards the cubic,
/// then the second conic and the first.
#[derive(Clone, Copy)]
pub struct OctantArcs {
    pub first: ConicArc,
    pub second: ConicArc,
    pub circle: CubicArc,
}

/// Two octants, one drawn forwards and then one drawn backwards.
#[derive(Clone, Copy)]
pub struct RoundCorner {
    pub forwards: OctantArcs,
    pub backwards: OctantArcs,
}

/// What is drawn of a corner: two lines, by where they end, or curves.
#[derive(Clone, Copy)]
pub enum Corner {
    Square(Point, Point),
    Round(RoundCorner),
}

/// The four corners in drawing order. Four fields, not an array: the definitions have an array as a list of any
/// length, and each law of a drawn outline would ask for its length.
#[derive(Clone, Copy)]
pub struct Corners {
    pub first: Corner,
    pub second: Corner,
    pub third: Corner,
    pub fourth: Corner,
}

/// An outline: a move to the start, the corners, a line to the start and a close.
#[derive(Clone, Copy)]
pub struct Outline {
    pub start: Point,
    pub corners: Corners,
}

// What is drawn of both octants of a corner.
fn both_curves(
    top_circle: [Point; 4],
    right_circle: [Point; 4],
    top_conics: SuperellipseConics,
    right_conics: SuperellipseConics,
) -> BothCurves
    ensures top { result.top ≡ record { circle = top_circle; conics = top_conics } }
    ensures right { result.right ≡ record { circle = right_circle; conics = right_conics } }
{
    BothCurves {
        top: Curves {
            circle: top_circle,
            conics: top_conics,
        },
        right: Curves {
            circle: right_circle,
            conics: right_conics,
        },
    }
}

// The curves of a corner's octants, batched.
#[tactic(auto, unfolding(crate::specs::Corners::curves_of))]
fn solve(top: Octant, right: Octant) -> BothCurves
    ensures top { result.top ≡ curves_of top }
    ensures right { result.right ≡ curves_of right }
{
    let [top_circle, right_circle] = octant_curves::circular_arcs([top, right]);
    let [top_conics, right_conics] = octant_curves::conics([top, right]);
    both_curves(top_circle, right_circle, top_conics, right_conics)
}

// The same of a corner that is drawn by itself, beside a square one: the arcs one by one.
#[tactic(auto, unfolding(crate::specs::Corners::curves_of))]
fn solve_apart(top: Octant, right: Octant) -> BothCurves
    ensures top { result.top ≡ curves_of top }
    ensures right { result.right ≡ curves_of right }
{
    let [top_conics, right_conics] = octant_curves::conics([top, right]);
    both_curves(
        octant_curves::circular_arc_points(top),
        octant_curves::circular_arc_points(right),
        top_conics,
        right_conics,
    )
}

// Where an octant is placed.
fn placement(param: Octant, offset: Point, scale: Point, flip: bool) -> Placement
    ensures { result ≡ placement_of param offset scale flip }
{
    let octant_offset = param.offset;
    Placement {
        offset: offset,
        scale: scale,
        octant_offset: octant_offset,
        flip: flip,
    }
}

#[tactic(auto, unfolding(crate::specs::Corners::placed_conic))]
fn conic_arc(place: Placement, ctrl: Point, to: Point, weight: f32) -> ConicArc
    ensures { conic_call result ≡ placed_conic place ctrl to weight }
{
    ConicArc {
        ctrl: place.apply(ctrl),
        to: place.apply(to),
        weight: weight,
    }
}

#[tactic(auto, unfolding(crate::specs::Corners::placed_cubic))]
fn cubic_arc(place: Placement, c0: Point, c1: Point, to: Point) -> CubicArc
    ensures { cubic_call result ≡ placed_cubic place c0 c1 to }
{
    CubicArc {
        c0: place.apply(c0),
        c1: place.apply(c1),
        to: place.apply(to),
    }
}

// The two arms of the Rust's add_octant. The array of the arc's four points is read forwards in one and backwards in
// the other.
#[tactic(auto, unfolding(crate::specs::Corners::forwards_calls))]
fn place_forwards(place: Placement, curves: Curves) -> OctantArcs
    ensures { calls_forwards result ≡ forwards_calls place curves }
{
    let circle = curves.circle;
    let se = curves.conics;
    OctantArcs {
        first: conic_arc(place, se.c1, se.h, se.weight1),
        second: conic_arc(place, se.c2, se.j, se.weight2),
        circle: cubic_arc(place, circle[1], circle[2], circle[3]),
    }
}

#[tactic(auto, unfolding(crate::specs::Corners::backwards_calls))]
fn place_backwards(place: Placement, curves: Curves) -> OctantArcs
    ensures { calls_backwards result ≡ backwards_calls place curves }
{
    let circle = curves.circle;
    let se = curves.conics;
    OctantArcs {
        first: conic_arc(place, se.c1, se.a, se.weight1),
        second: conic_arc(place, se.c2, se.h, se.weight2),
        circle: cubic_arc(place, circle[2], circle[1], circle[0]),
    }
}

// Where the second line of a square corner goes.
#[tactic(auto, unfolding(crate::specs::Corners::next_of))]
fn next_point(param: Quadrant, reverse: bool) -> Point
    ensures { result ≡ next_of param reverse }
{
    if reverse {
        return param.top.offset
            + Point {
                x: 0.0,
                y: param.top.se_a,
            };
    }
    param.right.offset
        + Point {
            x: param.right.se_a,
            y: 0.0,
        }
}

#[tactic(auto, unfolding(crate::specs::Corners::square_calls))]
fn square_corner(param: Quadrant, reverse: bool, scale: Point) -> Corner
    ensures { calls_of result ≡ square_calls param reverse scale }
{
    let a = param.top.se_a;
    let corner = param.top.offset + Point { x: a, y: a };
    let next = next_point(param, reverse);
    Corner::Square(param.offset + scale * corner, param.offset + scale * next)
}

// The octant that is drawn first goes forwards, the other backwards; the right one is flipped.
#[tactic(auto, unfolding(crate::specs::Corners::calls_by_curves))]
fn round_corner(param: Quadrant, top: Curves, right: Curves, reverse: bool, scale: Point) -> Corner
    ensures { calls_of result ≡ calls_by_curves param top right reverse scale }
{
    let from_top = placement(param.top, param.offset, scale, false);
    let from_right = placement(param.right, param.offset, scale, true);
    if reverse {
        return Corner::Round(RoundCorner {
            forwards: place_forwards(from_right, right),
            backwards: place_backwards(from_top, top),
        });
    }
    Corner::Round(RoundCorner {
        forwards: place_forwards(from_top, top),
        backwards: place_backwards(from_right, right),
    })
}

// One corner by itself.
fn draw_corner(param: Quadrant, reverse: bool, scale_sign: Point) -> Corner
    ensures { calls_of result ≡ corner_calls param reverse scale_sign }
{
    let scale = param.signed_scale * scale_sign;
    if param.is_square() {
        return square_corner(param, reverse, scale);
    }
    let curves = solve_apart(param.top, param.right);
    let top = curves.top;
    let right = curves.right;
    round_corner(param, top, right, reverse, scale)
}

// One quadrant, drawn four ways.
fn equal_corners(tr: Quadrant) -> Corners
    ensures { call_lists result ≡ equal_corners tr }
{
    let scale1 = tr.signed_scale * Point { x: 1.0, y: 1.0 };
    let scale2 = tr.signed_scale * Point { x: 1.0, y: -1.0 };
    let scale3 = tr.signed_scale * Point { x: -1.0, y: -1.0 };
    let scale4 = tr.signed_scale * Point { x: -1.0, y: 1.0 };
    if tr.is_square() {
        return Corners {
            first: square_corner(tr, false, scale1),
            second: square_corner(tr, true, scale2),
            third: square_corner(tr, false, scale3),
            fourth: square_corner(tr, true, scale4),
        };
    }
    let curves = solve(tr.top, tr.right);
    let top = curves.top;
    let right = curves.right;
    Corners {
        first: round_corner(tr, top, right, false, scale1),
        second: round_corner(tr, top, right, true, scale2),
        third: round_corner(tr, top, right, false, scale3),
        fourth: round_corner(tr, top, right, true, scale4),
    }
}

// A round corner by its octants' curves, not reflected.
fn round_one(param: Quadrant, curves: BothCurves, reverse: bool) -> Corner
    ensures { calls_of result
        ≡ calls_by_curves param curves.top curves.right reverse (whole_scale param) }
{
    let scale = param.signed_scale * Point { x: 1.0, y: 1.0 };
    let top = curves.top;
    let right = curves.right;
    round_corner(param, top, right, reverse, scale)
}

// Four round corners, all eight octants batched.
fn draw_round(p: Quadrant, q: Quadrant, r: Quadrant, s: Quadrant) -> Corners
    ensures first { calls_of result.first ≡ round_calls p false (whole_scale p) }
    ensures second { calls_of result.second ≡ round_calls q true (whole_scale q) }
    ensures third { calls_of result.third ≡ round_calls r false (whole_scale r) }
    ensures fourth { calls_of result.fourth ≡ round_calls s true (whole_scale s) }
{
    let octants = [
        p.top, p.right, q.top, q.right, r.top, r.right, s.top, s.right,
    ];
    let a = octant_curves::circular_arcs(octants);
    let c = octant_curves::conics(octants);
    Corners {
        first: round_one(p, both_curves(a[0], a[1], c[0], c[1]), false),
        second: round_one(q, both_curves(a[2], a[3], c[2], c[3]), true),
        third: round_one(r, both_curves(a[4], a[5], c[4], c[5]), false),
        fourth: round_one(s, both_curves(a[6], a[7], c[6], c[7]), true),
    }
}

// Each corner by itself.
#[tactic(auto, unfolding(crate::specs::Corners::unequal_corners))]
fn draw_apart(shape: RoundSuperellipse) -> Corners
    ensures { call_lists result ≡ unequal_corners shape }
{
    let sign = Point { x: 1.0, y: 1.0 };
    Corners {
        first: draw_corner(shape.top_right, false, sign),
        second: draw_corner(shape.bottom_right, true, sign),
        third: draw_corner(shape.bottom_left, false, sign),
        fourth: draw_corner(shape.top_left, true, sign),
    }
}

// Whether a corner is square.
fn any_square(shape: RoundSuperellipse) -> bool
    ensures { result ≡ any_square shape }
{
    shape.top_right.is_square()
        || shape.bottom_right.is_square()
        || shape.bottom_left.is_square()
        || shape.top_left.is_square()
}

// The four corners in one batch, unless one is square: that one has no curves.
fn unequal_corners(shape: RoundSuperellipse) -> Corners
    ensures { call_lists result ≡ unequal_corners shape }
{
    if any_square(shape) {
        return draw_apart(shape);
    }
    draw_round(
        shape.top_right,
        shape.bottom_right,
        shape.bottom_left,
        shape.top_left,
    )
}

#[tactic(auto, unfolding(crate::specs::Corners::corners_of, crate::specs::Corners::unequal_corners))]
fn draw_corners(shape: RoundSuperellipse) -> Corners
    ensures { call_lists result ≡ corners_of shape }
{
    if shape.all_corners_same {
        return equal_corners(shape.top_right);
    }
    unequal_corners(shape)
}

// Where the outline starts.
#[tactic(auto, unfolding(crate::specs::Corners::start_point))]
fn start_point(tr: Quadrant) -> Point
    ensures { result ≡ start_point tr }
{
    let side = tr.top.offset
        + Point {
            x: 0.0,
            y: tr.top.se_a,
        };
    tr.offset + tr.signed_scale * side
}

/// The outline of a shape, as the Rust's add_to draws it.
#[tactic(auto, unfolding(crate::specs::Calls::outline_of))]
pub fn draw(shape: RoundSuperellipse) -> Outline
    ensures { drawing_of result ≡ outline_of shape }
{
    Outline {
        start: start_point(shape.top_right),
        corners: draw_corners(shape),
    }
}
