//! One eighth of the outline, solved: a superellipse arc that hands over to a circular arc with the same tangent.
//! Binary32 throughout, every operation rounded once, with the Rust's names and in its order.

#![tactic(auto)]

ghost use Rattle.std.specs.Prelude.{◌≡◌, ◌+◌, ◌<◌, ◌^◌, map};
ghost use Rattle.std.specs.Simd.Lanes.{zip2};
ghost use Rattle.octant.specs.Degree.{corner_at, entry, left_row_of, table_steps_of, n_and_xj_of};
ghost use Rattle.octant.specs.Octant.{circle_center_through_of, angle_between_of, compute_octant_of, with_offset};
ghost use Rattle.octant.specs.Stages.{fit_of, solve_of, arc_end_of, octant_without_angle, round_octant_of};
ghost use Rattle.octant.specs.declared.OctantFrame.{OctantFrame};

use geometry::Point;

/// The radius up to which a corner is square.
pub const CLOSE_ENOUGH: f32 = 1e-3;

// 1 - cos(pi/4).
const GAP_FACTOR: f32 = 0.292_893_22;

const SQRT_2: f32 = 1.414_213_56;

// The degree n and k_xJ, fitted against the ratio of side to radius: from 2.0 to 2.5 by 0.1, then to 5.0 by 0.5.
const CORNER_TABLE: [[f32; 2]; 11] = [
    [2.000_000_0, 1.132_766_8],
    [2.183_498, 1.203_119_2],
    [2.338_886_6, 1.286_988],
    [2.486_606, 1.363_519_4],
    [2.622_266, 1.447_179_8],
    [2.751_489_9, 1.533_858_2],
    [3.362_982_7, 1.982_882_8],
    [4.086_499, 2.238_118_5],
    [4.854_811, 2.475_634_6],
    [5.629_455_5, 2.729_486],
    [6.430_238, 2.980_204],
];

const MIN_RATIO: f32 = 2.00;

const FIRST_STEP_INVERSE: f32 = 10.0;

const FIRST_MAX_RATIO: f32 = 2.50;

const FIRST_NUM_RECORDS: f32 = 6.0;

const SECOND_STEP_INVERSE: f32 = 2.0;

const SECOND_MAX_RATIO: f32 = 5.00;

const THIRD_N_SLOPE: f32 = 1.559_599_4;

const THIRD_KXJ_SLOPE: f32 = 0.522_807_2;

/// One eighth of the outline, in the space of a corner with equal radii: one record of floats and points. A degree
/// below 2 marks a square corner.
#[derive(Clone, Copy)]
pub struct Octant {
    pub offset: Point,
    pub se_a: f32,
    pub se_n: f32,
    pub circle_start: Point,
    pub circle_center: Point,
    pub circle_max_angle: f32,
}

// The superellipse's degree, and where its arc ends as a part of the half-extent.
#[derive(Drop)]
struct NAndXj {
    n: f32,
    xj_over_a: f32,
}

#[tactic(auto, unfolding(crate::specs::Degree::corner_at))]
fn corner(row: usize, column: usize) -> f32
    requires row { row < 11 }
    requires column { column < 2 }
    ensures { result ≡ corner_at row column }
{
    CORNER_TABLE[row][column]
}

/// A row of a table and the next.
#[derive(Drop)]
pub struct RowPair {
    pub first: f32,
    pub second: f32,
    pub next_first: f32,
    pub next_second: f32,
}

/// The row of a table at `left`, and the next. The table is lent: a copy that is indexed by a variable would be written
/// to the stack.
pub fn rows_at<const N: usize>(table: &[[f32; 2]; N], left: usize) -> RowPair
    requires { left + 1 < N }
    ensures first { result.first ≡ entry table.now left 0 }
    ensures second { result.second ≡ entry table.now left 1 }
    ensures next_first { result.next_first ≡ entry table.now (left + 1) 0 }
    ensures next_second { result.next_second ≡ entry table.now (left + 1) 1 }
{
    RowPair {
        first: table[left][0],
        second: table[left][1],
        next_first: table[left + 1][0],
        next_second: table[left + 1][1],
    }
}

/// The whole part of steps, found by comparisons, but at most last; 0 for a NaN.
pub fn left_row(steps: f32, last: u8) -> usize
    ensures { result ≡ left_row_of steps last }
{
    let end = usize::from(last);
    (0..end)
        .find(|&left| !(steps >= (left + 1) as f32))
        .unwrap_or(end)
}

// Where a ratio stands among the rows.
#[tactic(auto, unfolding(crate::specs::Degree::table_steps_of))]
fn table_steps(ratio: f32) -> f32
    ensures { result ≡ table_steps_of ratio }
{
    if ratio < FIRST_MAX_RATIO {
        return (ratio - MIN_RATIO) * FIRST_STEP_INVERSE;
    }
    (ratio - FIRST_MAX_RATIO) * SECOND_STEP_INVERSE + FIRST_NUM_RECORDS - 1.0
}

// The degree n and xJ/a for a ratio of side to radius.
#[tactic(auto, unfolding(crate::specs::Degree::n_and_xj_of, crate::specs::Degree::corner_at))]
fn n_and_xj(ratio: f32) -> NAndXj
    ensures { result ≡ n_and_xj_of ratio }
{
    if ratio > SECOND_MAX_RATIO {
        let n = THIRD_N_SLOPE * (ratio - SECOND_MAX_RATIO) + corner(10, 0);
        let k_xj = THIRD_KXJ_SLOPE * (ratio - SECOND_MAX_RATIO) + corner(10, 1);
        return NAndXj {
            n,
            xj_over_a: 1.0 - 1.0 / k_xj,
        };
    }
    let steps = table_steps(ieee::clamp(ratio, MIN_RATIO, SECOND_MAX_RATIO));
    let left = left_row(steps, 9);
    let frac = steps - left as f32;
    let row = rows_at(&CORNER_TABLE, left);
    let n = (1.0 - frac) * row.first + frac * row.next_first;
    let k_xj = (1.0 - frac) * row.second + frac * row.next_second;
    NAndXj {
        n,
        xj_over_a: 1.0 - 1.0 / k_xj,
    }
}

// The center of the circle of radius r through both a and b.
#[tactic(auto, using(crate::proofs::Turned::turned), unfolding(crate::specs::Octant::circle_center_through_of, geometry::specs::Point::normalize_of))]
fn circle_center_through(a: Point, b: Point, r: f32) -> Point
    ensures { result ≡ circle_center_through_of a b r }
{
    let a_to_b = b - a;
    let m = (a + b) / 2.0;
    let c_to_m = Point {
        x: -a_to_b.y,
        y: a_to_b.x,
    };
    // c_to_m is as long: it is a_to_b turned by a right angle.
    let length = a_to_b.length();
    let distance_am = length / 2.0;
    let distance_cm = ieee::sqrt(r * r - distance_am * distance_am);
    let unit = c_to_m * (1.0 / length);
    m - Point {
        x: distance_cm * unit.x,
        y: distance_cm * unit.y,
    }
}

// The signed angles from N vectors to N others. The bound on N is that of `trigonometry::angles_of_both`.
fn angles_between<const N: usize>(from: [Point; N], to: [Point; N]) -> [f32; N]
    requires { N < 2 ^ 59 }
    ensures { result ≡ zip2 angle_between_of from.entry to.entry }
{
    let (f, t) = trigonometry::angles_of_both(
        lanes::each(from, |p| p.y),
        lanes::each(from, |p| p.x),
        lanes::each(to, |p| p.y),
        lanes::each(to, |p| p.x),
    );
    lanes::pairwise(f, t, |f, t| t - f)
}

// What an octant is solved from: the gap at the corner, the degree, and the x where the arcs meet, also as a part of
// the half-extent.
#[derive(Clone, Copy)]
struct Fit {
    g: f32,
    n: f32,
    xj: f32,
    xj_over_a: f32,
}

#[tactic(auto, unfolding(crate::specs::Stages::fit_of))]
fn fit_octant(a: f32, radius: f32) -> Fit
    ensures { result ≡ fit_of a radius }
{
    let ratio = a * 2.0 / radius;
    let g = GAP_FACTOR * radius;
    let fit = n_and_xj(ratio);
    Fit {
        g,
        n: fit.n,
        xj: fit.xj_over_a * a,
        xj_over_a: fit.xj_over_a,
    }
}

/// An octant before it is solved.
#[derive(Clone, Copy)]
pub struct OctantFrame {
    pub center: Point,
    pub a: f32,
    pub radius: f32,
}

// The y where the arcs meet, and the slope of the tangent there.
#[derive(Clone, Copy)]
struct Meeting {
    y: f32,
    slope: f32,
}

// An octant but for what follows its last power.
#[derive(Clone, Copy)]
struct Solve {
    fit: Fit,
    at: Meeting,
}

// N solves, batched: within a solve each power waits for the one before, but for no other solve's.
fn solves<const N: usize>(u: [OctantFrame; N]) -> [Solve; N]
    ensures { result ≡ map solve_of u.entry }
{
    let s = lanes::each(u, |u| fit_octant(u.a, u.radius));
    let n = lanes::each(s, |s| s.n);
    let first = exponential::powers(lanes::each(s, |s| s.xj_over_a), n);
    let rests = lanes::each(first, |p| 1.0 - p);
    let roots = exponential::powers(rests, lanes::each(n, |n| 1.0 / n));
    let y = lanes::pairwise(roots, u, |r, u| r * u.a);
    let bases = lanes::pairwise(s, y, |s, y| s.xj / y);
    let slopes = exponential::powers(bases, lanes::each(n, |n| n - 1.0));
    let at = lanes::pairwise(y, slopes, |y, slope| Meeting { y, slope });
    lanes::pairwise(s, at, |fit, at| Solve { fit, at })
}

// Where the circular arc ends, on the diagonal.
fn arc_end(a: f32, g: f32) -> Point
    ensures { result ≡ arc_end_of a g }
{
    Point { x: a - g, y: a - g }
}

// The octant but for the angle of its circular arc, which is 0 here.
#[tactic(auto, unfolding(crate::specs::Stages::octant_without_angle))]
fn octant_without_angle(u: OctantFrame, s: Solve) -> Octant
    ensures { result ≡ octant_without_angle u s }
{
    let a = u.a;
    let xj = s.fit.xj;
    let g = s.fit.g;
    let yj = s.at.y;
    let tan_phij = s.at.slope;
    let d = (xj - tan_phij * yj) / (1.0 - tan_phij);
    let r = (a - d - g) * SQRT_2;
    let point_j = Point { x: xj, y: yj };
    Octant {
        offset: u.center,
        se_a: a,
        se_n: s.fit.n,
        circle_start: point_j,
        circle_center: circle_center_through(point_j, arc_end(a, g), r),
        circle_max_angle: 0.0,
    }
}

/// N octants that are round, batched: none has a radius up to CLOSE_ENOUGH. N is a count of lanes, a power of 2 up to
/// 64.
pub fn round_octants<const N: usize>(u: [OctantFrame; N]) -> [Octant; N]
    ensures { result ≡ map round_octant_of u.entry }
{
    let s = solves(u);
    let o = lanes::pairwise(u, s, octant_without_angle);
    let from = lanes::pairwise(o, s, |o, s| arc_end(o.se_a, s.fit.g) - o.circle_center);
    let to = lanes::each(o, |o| o.circle_start - o.circle_center);
    let angles = angles_between(from, to);
    lanes::pairwise(
        o,
        angles,
        |o, circle_max_angle| Octant {
            circle_max_angle,
            ..o
        },
    )
}

/// The octant of a corner: square, of degree 0, where the radius is at most CLOSE_ENOUGH.
#[tactic(auto, unfolding(crate::specs::Octant::compute_octant_of))]
pub fn compute_octant(center: Point, a: f32, radius: f32) -> Octant
    ensures { result ≡ compute_octant_of center a radius }
{
    if radius <= CLOSE_ENOUGH {
        return Octant {
            offset: center,
            se_a: a,
            se_n: 0.0,
            circle_start: Point { x: a, y: a },
            circle_center: Point { x: 0.0, y: 0.0 },
            circle_max_angle: 0.0,
        };
    }
    let [o] = round_octants([OctantFrame { center, a, radius }]);
    o
}

/// N octants, batched where all are round. N is a count of lanes, a power of 2 up to 64.
pub fn compute_octants<const N: usize>(u: [OctantFrame; N]) -> [Octant; N]
    ensures { result ≡ map (λ (o : OctantFrame). compute_octant_of o.center o.a o.radius) u.entry }
{
    if lanes::all(u, |u| !(u.radius <= CLOSE_ENOUGH)) {
        return round_octants(u);
    }
    lanes::each(u, |u| compute_octant(u.center, u.a, u.radius))
}

/// The same octant elsewhere: only the offset says where an octant is.
#[tactic(auto, unfolding(crate::specs::Octant::with_offset))]
pub fn with_offset(octant: Octant, center: Point) -> Octant
    ensures { result ≡ with_offset octant center }
{
    Octant {
        offset: center,
        ..octant
    }
}
