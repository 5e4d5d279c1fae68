//! A rounded superellipse: four quadrants, made of bounds and corner radii, or a refusal.
//! With the Rust's names and in its order.

#![tactic(auto)]

ghost use Rattle.std.specs.Prelude.{◌≡◌, Bool, map, Some};
ghost use Rattle.geometry.specs.declared.Point.{Point};
ghost use Rattle.octant.specs.Octant.{point};
ghost use Rattle.quadrant.specs.Quadrant.{frame_of, quadrant_of};
ghost use Rattle.shape.specs.Shape.{corners_in_order, all_same, one_quadrant, equal_shape, unequal_shape, shape_of};
ghost use Rattle.shape.specs.Laws.{MadeWithinLimits, GreatestIsWithinLimits, TwoIfBeyond, ThreeIfNegative, FourIfInverted, LimitPasses, NextIsBeyond, NotFiniteIsBeyond, MinusZeroIsNotBelow};
ghost use Rattle.shape.specs.Refusal.{any_corner, beyond_limit, point_beyond, radii_beyond, bounds_beyond, point_below, radii_below, inverted, number_of, refusal_text, shape_outcome_of, new_of};

use geometry::Point;
use quadrant::{Frame, Quadrant};
use std::error::Error;
use std::fmt;

pub mod layout;

// The largest magnitude that a component of the bounds or the radii may have.
const LIMIT: f32 = 16384.0;

/// The rectangle that a shape is made in, by two opposite corners.
#[derive(Clone, Copy)]
pub struct Bounds {
    pub min: Point,
    pub max: Point,
}

/// The radii along x and along y of each corner. Fields named by corner, and no array, so that none stands for another.
#[derive(Clone, Copy)]
pub struct CornerRadii {
    pub top_left: Point,
    pub top_right: Point,
    pub bottom_left: Point,
    pub bottom_right: Point,
}

/// The shape: a quadrant for each corner. Where all corners are the same, one quadrant describes all four, and
/// containment mirrors the point.
#[derive(Clone, Copy)]
pub struct RoundSuperellipse {
    pub top_right: Quadrant,
    pub bottom_right: Quadrant,
    pub bottom_left: Quadrant,
    pub top_left: Quadrant,
    pub all_corners_same: bool,
}

/// Why bounds and radii make no shape.
#[derive(Clone, Copy, Debug, PartialEq, Eq)]
pub enum ShapeError {
    BeyondLimit,
    NegativeRadius,
    Inverted,
}

impl ShapeError {
    /// The refusal's number, which the C interface and the programs write.
    #[tactic(auto, unfolding(crate::specs::Refusal::number_of))]
    pub fn number(self) -> u8
        ensures { result ≡ number_of self }
    {
        match self {
            ShapeError::BeyondLimit => 2,
            ShapeError::NegativeRadius => 3,
            ShapeError::Inverted => 4,
        }
    }
}

impl fmt::Display for ShapeError {
    ghost output = { λ e. Some (refusal_text e) };

    fn fmt<W: fmt::Write>(&self, f: &mut fmt::Formatter<W>) -> fmt::Result {
        f.write_str(match self {
            ShapeError::BeyondLimit =>
                "a bound or a radius is not finite, or over 16384 in magnitude",
            ShapeError::NegativeRadius => "a radius is below zero",
            ShapeError::Inverted => "max is below min on an axis",
        })
    }
}

impl Error for ShapeError {}

#[tactic(auto, unfolding(crate::specs::Shape::all_same, crate::specs::Shape::same_point))]
fn all_same(radii: CornerRadii) -> bool
    ensures { result ≡ all_same radii }
{
    radii.top_left == radii.top_right
        && radii.top_left == radii.bottom_left
        && radii.top_left == radii.bottom_right
}

// Four empty corners are left out: a plain rectangle follows the half-open border rule.
#[tactic(auto, unfolding(crate::specs::Shape::one_quadrant))]
fn one_quadrant(radii: CornerRadii) -> bool
    ensures { result ≡ one_quadrant radii }
{
    all_same(radii) && radii.top_left.x != 0.0 && radii.top_left.y != 0.0
}

#[tactic(auto, unfolding(crate::specs::Shape::equal_shape))]
fn equal_shape(bounds: Bounds, radii: CornerRadii) -> RoundSuperellipse
    ensures { result ≡ equal_shape bounds radii }
{
    let center = (bounds.min + bounds.max) / 2.0;
    let right_top = Point {
        x: bounds.max.x,
        y: bounds.min.y,
    };
    let sign = Point { x: -1.0, y: 1.0 };
    let q = quadrant::compute_quadrant(center, right_top, radii.top_right, sign);
    RoundSuperellipse {
        top_right: q,
        bottom_right: q,
        bottom_left: q,
        top_left: q,
        all_corners_same: true,
    }
}

// The corner with the center (x, y) and the sign (u, v).
fn frame_at(x: f32, y: f32, corner: Point, radii: Point, u: f32, v: f32) -> Frame
    ensures { result ≡ frame_of (point x y) corner radii (point u v) }
{
    quadrant::frame_of(Point { x, y }, corner, radii, Point { x: u, y: v })
}

// The four corners before their octants are solved, about the points where they divide their sides.
#[tactic(auto, using(quadrant::proofs::Framed::framed), unfolding(crate::specs::Shape::unequal_shape))]
fn frames(bounds: Bounds, radii: CornerRadii) -> [Frame; 4]
    ensures { map quadrant_of result ≡ corners_in_order (unequal_shape bounds radii) }
{
    let min = bounds.min;
    let max = bounds.max;
    let tr = Point { x: max.x, y: min.y };
    let bl = Point { x: min.x, y: max.y };
    let top = quadrant::split(min.x, max.x, radii.top_left.x, radii.top_right.x);
    let right = quadrant::split(min.y, max.y, radii.top_right.y, radii.bottom_right.y);
    let bottom = quadrant::split(min.x, max.x, radii.bottom_left.x, radii.bottom_right.x);
    let left = quadrant::split(min.y, max.y, radii.top_left.y, radii.bottom_left.y);
    [
        frame_at(top, right, tr, radii.top_right, 1.0, -1.0),
        frame_at(bottom, right, max, radii.bottom_right, 1.0, 1.0),
        frame_at(bottom, left, bl, radii.bottom_left, -1.0, 1.0),
        frame_at(top, left, min, radii.top_left, -1.0, -1.0),
    ]
}

#[tactic(auto, unfolding(crate::specs::Shape::unequal_shape))]
fn unequal_shape(bounds: Bounds, radii: CornerRadii) -> RoundSuperellipse
    ensures { result ≡ unequal_shape bounds radii }
{
    let [top_right, bottom_right, bottom_left, top_left] = quadrant::four_quadrants(frames(
        bounds, radii,
    ));
    RoundSuperellipse {
        top_right,
        bottom_right,
        bottom_left,
        top_left,
        all_corners_same: false,
    }
}

// The shape of any bounds and radii, refused or not.
#[tactic(auto, unfolding(crate::specs::Shape::shape_of))]
fn shape_of(bounds: Bounds, radii: CornerRadii) -> RoundSuperellipse
    ensures { result ≡ shape_of bounds radii }
{
    if one_quadrant(radii) {
        return equal_shape(bounds, radii);
    }
    unequal_shape(bounds, radii)
}

// Whether the radii of one of the corners pass the test. By `|`, not `||`: four tests and no branch.
#[tactic(auto, unfolding(crate::specs::Refusal::any_corner))]
fn any_corner<F: Fn(Point) -> bool>(radii: CornerRadii, test: F) -> bool
    requires { (p : Point) → F.pre test p }
    ensures { (has : Point → Bool) → ((p : Point) (b : Bool) → F.post test p b → b ≡ has p)
        → result ≡ any_corner has radii }
{
    test(radii.top_left)
        | test(radii.top_right)
        | test(radii.bottom_left)
        | test(radii.bottom_right)
}

#[tactic(auto, unfolding(crate::specs::Refusal::beyond_limit))]
fn beyond_limit(x: f32) -> bool
    ensures { result ≡ beyond_limit x }
{
    if ieee::is_finite(x) {
        return ieee::abs(x) > LIMIT;
    }
    true
}

#[tactic(auto, unfolding(crate::specs::Refusal::point_beyond))]
fn point_beyond(p: Point) -> bool
    ensures { result ≡ point_beyond p }
{
    beyond_limit(p.x) || beyond_limit(p.y)
}

#[tactic(auto, unfolding(crate::specs::Refusal::bounds_beyond))]
fn bounds_beyond(bounds: Bounds) -> bool
    ensures { result ≡ bounds_beyond bounds }
{
    point_beyond(bounds.min) || point_beyond(bounds.max)
}

#[tactic(auto, unfolding(crate::specs::Refusal::radii_beyond))]
fn radii_beyond(radii: CornerRadii) -> bool
    ensures { result ≡ radii_beyond radii }
{
    any_corner(radii, point_beyond)
}

// -0 is not below zero.
#[tactic(auto, unfolding(crate::specs::Refusal::point_below))]
fn point_below(p: Point) -> bool
    ensures { result ≡ point_below p }
{
    p.x < 0.0 || p.y < 0.0
}

#[tactic(auto, unfolding(crate::specs::Refusal::radii_below))]
fn radii_below(radii: CornerRadii) -> bool
    ensures { result ≡ radii_below radii }
{
    any_corner(radii, point_below)
}

#[tactic(auto, unfolding(crate::specs::Refusal::inverted))]
fn is_inverted(bounds: Bounds) -> bool
    ensures { result ≡ inverted bounds }
{
    bounds.max.x < bounds.min.x || bounds.max.y < bounds.min.y
}

impl RoundSuperellipse {
    /// The shape, or the first refusal whose cause the bounds and the radii give.
    #[tactic(auto, unfolding(crate::specs::Refusal::new_of, crate::specs::Refusal::number_of, crate::specs::Refusal::shape_outcome_of))]
    pub fn new(bounds: Bounds, radii: CornerRadii) -> Result<RoundSuperellipse, ShapeError>
        ensures { shape_outcome_of result ≡ new_of bounds radii }
    {
        if bounds_beyond(bounds) || radii_beyond(radii) {
            return Err(ShapeError::BeyondLimit);
        }
        if radii_below(radii) {
            return Err(ShapeError::NegativeRadius);
        }
        if is_inverted(bounds) {
            return Err(ShapeError::Inverted);
        }
        Ok(shape_of(bounds, radii))
    }
}

/// A shape is made within the limits, and nowhere else: the first refusal whose cause is met comes instead.
pub fn refusals_are_exact()
    ensures made { MadeWithinLimits }
    ensures greatest { GreatestIsWithinLimits }
    ensures two { TwoIfBeyond }
    ensures three { ThreeIfNegative }
    ensures four { FourIfInverted }

    // At the borders.
    ensures limit { LimitPasses }
    ensures next { NextIsBeyond }
    ensures not_finite { NotFiniteIsBeyond }
    ensures minus_zero { MinusZeroIsNotBelow }
{}
