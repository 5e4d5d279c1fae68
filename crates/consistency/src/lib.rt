//! Whether the outline and the touch area of a shape are consistent, and if not, why (docs/SPECIFICATION.md,
//! "Consistency").

#![tactic(auto)]

ghost use Rattle.std.specs.Prelude.{◌≡◌};
ghost use Rattle.std.specs.List.{list_all};
ghost use Rattle.consistency.specs.Consistency.{within_bounds, sides_of, centers_within, center_of, fine_beside_sides, fine_beside_longer, reach_of, stretched, fine_at, place_fine, corner_fine, corners_fine, widened, pair_within, all_within, outline_within, verdict_of, is_consistent, consistent_of};

use geometry::Point;
use quadrant::Quadrant;
use shape::{Bounds, RoundSuperellipse};

// How often the side on its axis, and the longer side, go into a magnitude at most.
const MOST_SIDES: f32 = 16384.0;

const MOST_LONGER_SIDES: f32 = 2048.0;
// How often the margin of the outline goes into a side.
const MARGIN_IN_SIDE: f32 = 128.0;

/// What is said of a shape: that its outline and its touch area are consistent, or the first reason why they may part
/// company.
#[derive(Clone, Copy, Debug, PartialEq, Eq)]
pub enum Verdict {
    Consistent,
    /// A center lies outside the bounds: a corner looks the wrong way.
    CenterOutside,
    /// The shape does not contain the center of its bounds.
    MiddleOutside,
    /// A side is too small beside the coordinates, or in itself.
    SidesSmall,
    /// A corner's radii are too unlike: rounding is stretched too far.
    CornerOval,
    /// A point of the outline lies far outside the bounds, or is not finite.
    OutlineOutside,
}

impl Verdict {
    #[tactic(auto, unfolding(crate::specs::Consistency::is_consistent))]
    fn is_consistent(self) -> bool
        ensures { result ≡ is_consistent self }
    {
        match self {
            Verdict::Consistent => true,
            Verdict::CenterOutside
            | Verdict::MiddleOutside
            | Verdict::SidesSmall
            | Verdict::CornerOval
            | Verdict::OutlineOutside => false,
        }
    }
}

// A NaN is not within.
#[tactic(auto, unfolding(crate::specs::Consistency::within_bounds))]
fn within(area: Bounds, p: Point) -> bool
    ensures { result ≡ within_bounds area p }
{
    area.min.x <= p.x && p.x <= area.max.x && area.min.y <= p.y && p.y <= area.max.y
}

#[tactic(auto, unfolding(crate::specs::Consistency::sides_of))]
fn sides(bounds: Bounds) -> Point
    ensures { result ≡ sides_of bounds }
{
    bounds.max - bounds.min
}

#[tactic(auto, unfolding(crate::specs::Consistency::centers_within))]
fn centers_within(bounds: Bounds, shape: RoundSuperellipse) -> bool
    ensures { result ≡ centers_within bounds shape }
{
    within(bounds, shape.top_right.offset)
        && within(bounds, shape.bottom_right.offset)
        && within(bounds, shape.bottom_left.offset)
        && within(bounds, shape.top_left.offset)
}

#[tactic(auto, unfolding(crate::specs::Consistency::center_of))]
fn center(bounds: Bounds) -> Point
    ensures { result ≡ center_of bounds }
{
    (bounds.min + bounds.max) / 2.0
}

// Whether floats of the magnitudes are close together beside the side on the same axis.
#[tactic(auto, unfolding(crate::specs::Consistency::fine_beside_sides))]
fn fine_beside_sides(magnitudes: Point, sides: Point) -> bool
    ensures { result ≡ fine_beside_sides magnitudes sides }
{
    magnitudes.x <= MOST_SIDES * sides.x && magnitudes.y <= MOST_SIDES * sides.y
}

// The same beside the longer side.
#[tactic(auto, unfolding(crate::specs::Consistency::fine_beside_longer))]
fn fine_beside_longer(magnitudes: Point, sides: Point) -> bool
    ensures { result ≡ fine_beside_longer magnitudes sides }
{
    let most = MOST_LONGER_SIDES * ieee::max(sides.x, sides.y);
    magnitudes.x <= most && magnitudes.y <= most
}

// The greatest coordinates in magnitude.
#[tactic(auto, unfolding(crate::specs::Consistency::reach_of))]
fn reach(bounds: Bounds) -> Point
    ensures { result ≡ reach_of bounds }
{
    let Bounds { min, max } = bounds;
    Point {
        x: ieee::max(ieee::abs(min.x), ieee::abs(max.x)),
        y: ieee::max(ieee::abs(min.y), ieee::abs(max.y)),
    }
}

// Each side as a corner's scale stretches it onto the other axis.
#[tactic(auto, unfolding(crate::specs::Consistency::stretched))]
fn stretched(sides: Point, scale: Point) -> Point
    ensures { result ≡ stretched sides scale }
{
    Point {
        x: sides.y * scale.x / scale.y,
        y: sides.x * scale.y / scale.x,
    }
}

#[tactic(auto, unfolding(crate::specs::Consistency::fine_at))]
fn fine_at(bounds: Bounds, scale: Point) -> bool
    ensures { result ≡ fine_at bounds scale }
{
    let sides = sides(bounds);
    let reach = reach(bounds);
    let corner = stretched(sides, scale);
    fine_beside_sides(reach, sides)
        && fine_beside_sides(corner, sides)
        && fine_beside_longer(reach + corner * 4.0, sides)
}

#[tactic(auto, unfolding(crate::specs::Consistency::place_fine))]
fn place_fine(bounds: Bounds) -> bool
    ensures { result ≡ place_fine bounds }
{
    let sides = sides(bounds);
    fine_at(bounds, Point { x: 1.0, y: 1.0 })
        && f32::MIN_POSITIVE <= sides.x
        && f32::MIN_POSITIVE <= sides.y
}

#[tactic(auto, unfolding(crate::specs::Consistency::corner_fine))]
fn corner_fine(bounds: Bounds, q: Quadrant) -> bool
    ensures { result ≡ corner_fine bounds q }
{
    fine_at(bounds, q.signed_scale.abs())
}

#[tactic(auto, unfolding(crate::specs::Consistency::corners_fine))]
fn corners_fine(bounds: Bounds, shape: RoundSuperellipse) -> bool
    ensures { result ≡ corners_fine bounds shape }
{
    corner_fine(bounds, shape.top_right)
        && corner_fine(bounds, shape.bottom_right)
        && corner_fine(bounds, shape.bottom_left)
        && corner_fine(bounds, shape.top_left)
}

#[tactic(auto, unfolding(crate::specs::Consistency::widened))]
fn widened(bounds: Bounds) -> Bounds
    ensures { result ≡ widened bounds }
{
    let margin = sides(bounds) / MARGIN_IN_SIDE;
    Bounds {
        min: bounds.min - margin,
        max: bounds.max + margin,
    }
}

fn pairs_within(area: Bounds, points: &[[f32; 2]]) -> bool
    ensures { result ≡ list_all (pair_within area) points.now }
{
    points
        .iter()
        .all(|p| within(area, Point { x: p[0], y: p[1] }))
}

fn all_within(area: Bounds, floats: &[f32]) -> bool
    ensures { result ≡ all_within area floats.now }
{
    pairs_within(area, floats.as_chunks::<2>().0)
}

// The outline is drawn into buffers that hold the largest one, so it is never refused. Arrays and no Vec: the library
// has no heap.
fn outline_within(bounds: Bounds, shape: RoundSuperellipse) -> bool
    ensures { result ≡ outline_within bounds shape }
{
    let mut verbs = [0u8; outline::MOST_VERBS];
    let mut points = [0.0f32; 2 * outline::MOST_POINTS];
    let Ok(b) = outline::add_to(shape, stream::new(), &mut verbs, &mut points) else {
        return false;
    };
    all_within(widened(bounds), &points[..2 * b.points])
}

/// The verdict on a shape and the bounds that it was made for.
#[tactic(auto, unfolding(crate::specs::Consistency::verdict_of))]
pub fn verdict_on(bounds: Bounds, shape: RoundSuperellipse) -> Verdict
    ensures { result ≡ verdict_of bounds shape }
{
    if !centers_within(bounds, shape) {
        return Verdict::CenterOutside;
    }
    if !containment::contains(shape, center(bounds)) {
        return Verdict::MiddleOutside;
    }
    if !place_fine(bounds) {
        return Verdict::SidesSmall;
    }
    if !corners_fine(bounds, shape) {
        return Verdict::CornerOval;
    }
    if !outline_within(bounds, shape) {
        return Verdict::OutlineOutside;
    }
    Verdict::Consistent
}

/// Whether a shape and the bounds that it was made for are consistent.
#[tactic(auto, unfolding(crate::specs::Consistency::consistent_of))]
pub fn is_consistent(bounds: Bounds, shape: RoundSuperellipse) -> bool
    ensures { result ≡ consistent_of bounds shape }
{
    verdict_on(bounds, shape).is_consistent()
}
