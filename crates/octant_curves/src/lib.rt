//! What the outline draws of an octant, in the octant's own space, and where a point of it is placed: two conics for
//! the superellipse arc, and the four points of a cubic for the circular one.
//! Binary32 throughout, every operation rounded once, with the Rust's names and in its order.

#![tactic(auto)]

ghost use Rattle.std.specs.Prelude.{◌≡◌, ◌+◌, ◌<◌, ◌^◌, map};
ghost use Rattle.octant_curves.specs.Conics.{capped_degree, superellipse_conic_factors_of, intersection_of, meeting_height_of, conics_by_slopes, superellipse_conics_of};
ghost use Rattle.octant_curves.specs.Circle.{arc_points_of, circular_arc_points_of};
ghost use Rattle.octant_curves.specs.Placement.{flipped_point, apply_of};
ghost use Rattle.std.specs.Simd.Lanes.{zip2};
ghost use Rattle.octant_curves.specs.Octants.{start_of, ratio_of, meeting_point_of, conics_from, conics_of};

use geometry::Point;
use octant::Octant;

// Normalized conic weights for the degrees 2 to 14.
const CONIC_TABLE: [[f32; 2]; 13] = [
    [0.7078, 8.3194],
    [0.7895, 2.4523],
    [0.8379, 1.8528],
    [0.8701, 1.6891],
    [0.8932, 1.5806],
    [0.9107, 1.5043],
    [0.9244, 1.4470],
    [0.9355, 1.4037],
    [0.9448, 1.3701],
    [0.9526, 1.3431],
    [0.9594, 1.3212],
    [0.9653, 1.3032],
    [0.9705, 1.2880],
];

const STEP: f32 = 1.0;

const MIN_N: f32 = 2.0;

// The weights of an octant's two conics, and the proportion in which the height where they meet lies.
#[derive(Clone, Copy)]
struct ConicFactors {
    weight1: f32,
    weight2: f32,
    yh_proportion: f32,
}

/// Two conics, from a on the flat side to h with the control c1, and on to j, where the circle starts, with the control
/// c2.
#[derive(Clone, Copy)]
pub struct SuperellipseConics {
    pub c1: Point,
    pub h: Point,
    pub weight1: f32,
    pub c2: Point,
    pub j: Point,
    pub weight2: f32,
    pub a: Point,
}

/// The map from an octant's own space out to the shape's.
#[derive(Clone, Copy)]
pub struct Placement {
    pub offset: Point,
    pub scale: Point,
    pub octant_offset: Point,
    pub flip: bool,
}

// A degree is capped at the table's last, and not raised to its first.
#[tactic(auto, unfolding(crate::specs::Conics::capped_degree))]
fn capped_degree(n: f32) -> f32
    ensures { result ≡ capped_degree n }
{
    let max_n = MIN_N + 12.0 * STEP;
    if n >= max_n {
        return max_n;
    }
    n
}

// The factors for a degree. Only the right-hand term of each interpolation is multiplied by the root or by xj_over_a:
// the weights drop back to the table's at each whole degree.
#[tactic(auto, unfolding(crate::specs::Conics::superellipse_conic_factors_of, crate::specs::Conics::conic_at))]
fn superellipse_conic_factors(n: f32, xj_over_a: f32) -> ConicFactors
    ensures { result ≡ superellipse_conic_factors_of n xj_over_a }
{
    let capped = capped_degree(n);
    let steps = ieee::clamp((capped - MIN_N) / STEP, 0.0, 12.0);
    let left = octant::left_row(steps, 11);
    let frac = steps - left as f32;
    let yh_proportion = ieee::sqrt(capped);
    let rows = octant::rows_at(&CONIC_TABLE, left);
    let weight1 = (1.0 - frac) * rows.first + frac * rows.next_first * yh_proportion;
    let weight2 = (1.0 - frac) * rows.second + frac * rows.next_second * xj_over_a;
    ConicFactors {
        weight1,
        weight2,
        yh_proportion,
    }
}

// The intersection of two lines, each given by a point and a slope.
#[tactic(auto, unfolding(crate::specs::Conics::intersection_of))]
fn intersection(p1: Point, k1: f32, p2: Point, k2: f32) -> Point
    ensures { result ≡ intersection_of p1 k1 p2 k2 }
{
    if ieee::abs(k1 - k2) < octant::CLOSE_ENOUGH {
        return (p1 + p2) / 2.0;
    }
    let x = (k1 * p1.x - k2 * p2.x + p2.y - p1.y) / (k1 - k2);
    Point {
        x,
        y: k1 * (x - p1.x) + p1.y,
    }
}

// The conics of an octant whose first ends at h, by the slopes there and where the circle starts.
#[tactic(auto, unfolding(crate::specs::Conics::conics_by_slopes))]
fn conics_by_slopes(
    param: Octant,
    f: ConicFactors,
    h: Point,
    k_h: f32,
    k_j: f32,
) -> SuperellipseConics
    ensures { result ≡ conics_by_slopes param f h k_h k_j }
{
    let a = Point {
        x: 0.0,
        y: param.se_a,
    };
    let j = param.circle_start;
    let k_a = 0.0;
    SuperellipseConics {
        c1: intersection(a, k_a, h, k_h),
        h,
        weight1: f.weight1,
        c2: intersection(h, k_h, j, k_j),
        j,
        weight2: f.weight2,
        a,
    }
}

// The height at which the conics meet, as a part of the half-extent.
#[tactic(auto, unfolding(crate::specs::Conics::meeting_height_of))]
fn meeting_height(f: ConicFactors, yj_over_a: f32) -> f32
    ensures { result ≡ meeting_height_of f yj_over_a }
{
    (1.0 * f.yh_proportion + yj_over_a) / (f.yh_proportion + 1.0)
}

// The circular arc as a cubic, from the sine and cosine of minus its angle and the tangent of a quarter of it.
fn arc_points(param: Octant, sin: f32, cos: f32, tan: f32) -> [Point; 4]
    ensures { result ≡ arc_points_of param sin cos tan }
{
    let start = param.circle_start;
    let start_vector = start - param.circle_center;
    let end_vector = Point {
        x: start_vector.x * cos - start_vector.y * sin,
        y: start_vector.x * sin + start_vector.y * cos,
    };
    let circle_end = param.circle_center + end_vector;
    // The tangent at the start is start_vector turned by a right angle, so as long.
    let radius = start_vector.length();
    let turned = Point {
        x: start_vector.y,
        y: -start_vector.x,
    };
    let start_tangent = turned * (1.0 / radius);
    let end_turned = Point {
        x: -end_vector.y,
        y: end_vector.x,
    };
    let end_tangent = end_turned.normalize();
    let bezier_factor = tan * 4.0 / 3.0;
    let first = start_tangent * bezier_factor * radius;
    let second = end_tangent * bezier_factor * radius;
    let control1 = start + first;
    let control2 = circle_end + second;
    [start, control1, control2, circle_end]
}

#[tactic(auto, unfolding(crate::specs::Placement::flipped_point))]
fn flipped_point(flip: bool, p: Point) -> Point
    ensures { result ≡ flipped_point flip p }
{
    if flip {
        return Point { x: p.y, y: p.x };
    }
    p
}

impl Placement {
    /// Where a point of the octant's own space stands in the shape's.
    #[tactic(auto, unfolding(crate::specs::Placement::apply_of))]
    pub fn apply(self, p: Point) -> Point
        ensures { result ≡ apply_of self p }
    {
        let own = self.octant_offset + flipped_point(self.flip, p);
        self.offset + self.scale * own
    }
}

// An octant, its conics' factors, and the height where the conics meet as a part of its half-extent.
#[derive(Clone, Copy)]
struct Start {
    octant: Octant,
    factors: ConicFactors,
    y: f32,
}

// The slopes of the tangents where the conics meet and where the circle starts, but for the sign.
#[derive(Clone, Copy)]
struct Slopes {
    at_h: f32,
    at_j: f32,
}

// Where the conics meet, and the slopes.
#[derive(Clone, Copy)]
struct End {
    h: Point,
    slopes: Slopes,
}

// The same of an octant, by the height where its circle starts, as a part of its half-extent.
fn start_of(octant: Octant, yj_over_a: f32) -> Start
    ensures { result ≡ start_of octant yj_over_a }
{
    let factors = superellipse_conic_factors(octant.se_n, octant.circle_start.x / octant.se_a);
    let y = meeting_height(factors, yj_over_a);
    Start { octant, factors, y }
}

// The slope of the radius to a point, which a power makes the slope of the tangent, but for the sign.
fn ratio(p: Point) -> f32
    ensures { result ≡ ratio_of p }
{
    p.x / p.y
}

// Where the conics of an octant meet.
fn meeting_point(s: Start, x: f32) -> Point
    ensures { result ≡ meeting_point_of s x }
{
    Point {
        x: x * s.octant.se_a,
        y: s.y * s.octant.se_a,
    }
}

// The superellipse arcs of N octants, batched. The tangents fall, by as much as the slopes.
fn conics_from<const N: usize>(s: [Start; N]) -> [SuperellipseConics; N]
    ensures { result ≡ map conics_from s.entry }
{
    let n = lanes::each(s, |s| s.octant.se_n);
    let less = lanes::each(n, |n| n - 1.0);
    let at_circle = lanes::each(s, |s| ratio(s.octant.circle_start));
    let (powers, at_j) = exponential::powers_of_both(lanes::each(s, |s| s.y), n, at_circle, less);
    let rests = lanes::each(powers, |p| 1.0 - p);
    let roots = exponential::powers(rests, lanes::each(n, |n| 1.0 / n));
    let h = lanes::pairwise(s, roots, meeting_point);
    let at_h = exponential::powers(lanes::each(h, ratio), less);
    let slopes = lanes::pairwise(at_h, at_j, |at_h, at_j| Slopes { at_h, at_j });
    let ends = lanes::pairwise(h, slopes, |h, slopes| End { h, slopes });
    lanes::pairwise(s, ends, |s, e| {
        conics_by_slopes(s.octant, s.factors, e.h, -e.slopes.at_h, -e.slopes.at_j)
    })
}

// The superellipse arcs of N octants, each by the height where its circle starts, as a part of its half-extent. The
// bound on N, here and below: N records `Start` fit in memory, which the types of the arguments and the result do not
// say, since a `Start` is larger.
fn superellipse_conics<const N: usize>(
    o: [Octant; N],
    yj_over_a: [f32; N],
) -> [SuperellipseConics; N]
    requires { N < 2 ^ 57 }
    ensures { result ≡ zip2 superellipse_conics_of o.entry yj_over_a.entry }
{
    conics_from(lanes::pairwise(o, yj_over_a, start_of))
}

/// The superellipse arcs of N octants as two conics each, batched. N is a count of lanes, a power of 2 up to 64.
pub fn conics<const N: usize>(o: [Octant; N]) -> [SuperellipseConics; N]
    requires { N < 2 ^ 57 }
    ensures { result ≡ map conics_of o.entry }
{
    superellipse_conics(o, lanes::each(o, |o| o.circle_start.y / o.se_a))
}

// The sine and cosine of minus an arc's angle, and the tangent of a quarter of it.
#[derive(Clone, Copy)]
struct Turn {
    sin: f32,
    cos: f32,
    tan: f32,
}

// The circular arc of an octant that is turned so.
fn arc(o: Octant, t: Turn) -> [Point; 4]
    ensures { result ≡ arc_points_of o t.sin t.cos t.tan }
{
    arc_points(o, t.sin, t.cos, t.tan)
}

/// The circular arc of an octant as a cubic: start, two controls, end.
#[tactic(auto, unfolding(crate::specs::Circle::circular_arc_points_of))]
pub fn circular_arc_points(param: Octant) -> [Point; 4]
    ensures { result ≡ circular_arc_points_of param }
{
    let turn = trigonometry::sin_cos(-param.circle_max_angle);
    let tan = trigonometry::tan(param.circle_max_angle / 4.0);
    arc_points(param, turn.sin, turn.cos, tan)
}

/// The circular arcs of N octants, batched: each as `circular_arc_points` has it. N is a count of lanes, a power of 2
/// up to 64.
pub fn circular_arcs<const N: usize>(o: [Octant; N]) -> [[Point; 4]; N]
    ensures { result ≡ map circular_arc_points_of o.entry }
{
    let turns = trigonometry::sines_and_cosines(lanes::each(o, |o| -o.circle_max_angle));
    let tans = trigonometry::tangents(lanes::each(o, |o| o.circle_max_angle / 4.0));
    let t = lanes::pairwise(
        turns,
        tans,
        |t, tan| Turn {
            sin: t.sin,
            cos: t.cos,
            tan,
        },
    );
    lanes::pairwise(o, t, arc)
}
