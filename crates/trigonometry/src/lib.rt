//! Sine, cosine, tangent and the angle of a point. The steps are f64, each rounded once in the order that the
//! definitions of specs/ have; only the results are narrowed.

#![tactic(auto)]

ghost use Rattle.std.specs.Prelude.{◌≡◌, ◌<◌, ◌^◌, map, not, true, ◌&&◌, ◌||◌, Bool, if◌then◌else◌};
ghost use Rattle.std.specs.List.{list_all};
ghost use Rattle.std.specs.Float.Ieee.Scale.{finite};
ghost use Rattle.std.specs.Float.{nan, binary64, pi};
ghost use Rattle.std.specs.Float.Ieee.{ne, lt, le};
ghost use Rattle.ieee.specs.Basic.{abs_of, widen_of};
ghost use Rattle.ieee.specs.Binary64.{◌⊕◌, ◌⊖◌, ◌⊘◌, half, one, two, four};
ghost use Rattle.series.specs.Coefficients.{terms};
ghost use Rattle.trigonometry.specs.Constants.{eight};
ghost use Rattle.trigonometry.specs.Sine.{sine_term, cosine_term, sixteenth_of, doubled_of, pair_of, sin_cos_of, tan_of, apart, together};
ghost use Rattle.trigonometry.specs.Arctangent.{arctangent_term, series_of, arctangent_of, quarter_of, mirrored_of, signed_of, atan2_of};
ghost use Rattle.std.specs.Simd.Lanes.{zip2};
ghost use Rattle.trigonometry.specs.Stages.{plain, place_of, ratio_of, turned_of, angle_of};

use std::f64::consts::PI;

/// The sine and the cosine of an angle.
#[derive(Clone, Copy)]
pub struct SinCos {
    pub sin: f32,
    pub cos: f32,
}

// A sine and a cosine, before they are narrowed.
#[derive(Clone, Copy)]
struct Pair {
    s: f64,
    c: f64,
}

// N of them, the sines and the cosines each in an array of their own, so that a step is the same for all of an array.
#[derive(Clone, Copy)]
struct Pairs<const N: usize> {
    s: [f64; N],
    c: [f64; N],
}

fn sine_coefficients() -> [f64; 8]
    ensures { result ≡ terms sine_term 8 }
{
    let f = series::factorial_reciprocals();
    [f[1], -f[3], f[5], -f[7], f[9], -f[11], f[13], -f[15]]
}

fn cosine_coefficients() -> [f64; 8]
    ensures { result ≡ terms cosine_term 8 }
{
    let f = series::factorial_reciprocals();
    [f[0], -f[2], f[4], -f[6], f[8], -f[10], f[12], -f[14]]
}

// The sines and cosines of N numbers / 16, side by side.
fn sixteenths<const N: usize>(t: [f64; N]) -> Pairs<N>
    ensures { result ≡ apart (map sixteenth_of t.entry) }
{
    let q = lanes::each(t, |t| t / 16.0);
    let z = lanes::each(q, |q| q * q);
    let sines = sine_coefficients();
    let cosines = cosine_coefficients();
    let s = lanes::pairwise(q, series::horner(&sines, z), |q, g| q * g);
    let c = series::horner(&cosines, z);
    Pairs { s, c }
}

// The pairs of twice the angles.
fn doubled<const N: usize>(p: Pairs<N>) -> Pairs<N>
    ensures { result ≡ apart (map doubled_of (together p.entry)) }
{
    let s = lanes::pairwise(p.s, p.c, |s, c| (2.0 * s) * c);
    let c = lanes::pairwise(p.s, p.c, |s, c| c * c - s * s);
    Pairs { s, c }
}

// The pairs of sixteen times the angles.
fn sixteenfold<const N: usize>(p: Pairs<N>) -> Pairs<N>
    ensures { result
        ≡ apart (map (λ q. doubled_of (doubled_of (doubled_of (doubled_of q)))) (together p.entry)) }
{
    doubled(doubled(doubled(doubled(p))))
}

// No NaN, and of magnitude 8 at most. A comparison with a NaN is false.
fn in_range(t: f32) -> bool
    ensures { result ≡ not (ne t t || lt eight (abs_of t)) }
{
    -8.0 <= t && t <= 8.0
}

// An angle, widened; one that has no sine becomes a NaN, whose sine and cosine are NaNs.
#[tactic(auto, using(ieee::proofs::Specials::nan64_is, crate::proofs::Range::widened), unfolding(ieee::specs::Basic::widen_of))]
fn bounded(t: f32) -> f64
    ensures { result ≡ (if ne t t || lt eight (abs_of t) then nan else widen_of t) }
{
    if in_range(t) {
        return t as f64;
    }
    0.0 / 0.0
}

// The sines and cosines of N angles, side by side.
fn pairs_at<const N: usize>(t: [f32; N]) -> Pairs<N>
    ensures { result ≡ apart (map (λ x. pair_of (widen_of x)) t.entry) }
{
    sixteenfold(sixteenths(lanes::each(t, bounded)))
}

// By a branch, since one angle alone would wait for the choice that `bounded` makes.
#[tactic(auto, using(ieee::proofs::Specials::nan64_is, crate::proofs::Range::widened), unfolding(crate::specs::Sine::pair_of, ieee::specs::Basic::widen_of))]
fn pair_at(t: f32) -> Pair
    ensures { result ≡ pair_of (widen_of t) }
{
    if in_range(t) {
        let p = sixteenfold(sixteenths([t as f64]));
        let [s] = p.s;
        let [c] = p.c;
        return Pair { s, c };
    }
    Pair {
        s: 0.0 / 0.0,
        c: 0.0 / 0.0,
    }
}

/// The sine and the cosine of the angle t; NaNs where t is a NaN or further than 8 from 0.
#[tactic(auto, unfolding(crate::specs::Sine::sin_cos_of))]
pub fn sin_cos(t: f32) -> SinCos
    ensures { result ≡ sin_cos_of t }
{
    let p = pair_at(t);
    let [sin, cos] = lanes::narrow([p.s, p.c]);
    SinCos { sin, cos }
}

/// The tangent of the angle t; a NaN where t is a NaN or further than 8 from 0.
#[tactic(auto, unfolding(crate::specs::Sine::tan_of))]
pub fn tan(t: f32) -> f32
    ensures { result ≡ tan_of t }
{
    let p = pair_at(t);
    ieee::narrow(p.s / p.c)
}

fn arctangent_coefficients() -> [f64; 26]
    ensures { result ≡ terms arctangent_term 26 }
{
    let c = series::odd_reciprocals();
    [
        c[0], -c[1], c[2], -c[3], c[4], -c[5], c[6], -c[7], c[8], -c[9], c[10], -c[11], c[12],
        -c[13], c[14], -c[15], c[16], -c[17], c[18], -c[19], c[20], -c[21], c[22], -c[23], c[24],
        -c[25],
    ]
}

// The number at which the arctangent of r takes the series.
fn reduced(r: f64) -> f64
    ensures { result ≡ (if le r half then r else (r ⊖ one) ⊘ (r ⊕ one)) }
{
    if r <= 0.5 {
        return r;
    }
    (r - 1.0) / (r + 1.0)
}

// The arctangent of r, from the value v of its series.
fn raised(r: f64, v: f64) -> f64
    ensures { result ≡ (if le r half then v else pi binary64 ⊘ four ⊕ v) }
{
    if r <= 0.5 {
        return v;
    }
    PI / 4.0 + v
}

// The arctangents of N numbers, side by side. The series stands once for both cases, so that no branch but a choice
// between numbers is left.
fn arctangents<const N: usize>(r: [f64; N]) -> [f64; N]
    ensures { result ≡ map arctangent_of r.entry }
{
    let s = lanes::each(r, reduced);
    let cs = arctangent_coefficients();
    let h = series::horner(&cs, lanes::each(s, |s| s * s));
    let v = lanes::pairwise(s, h, |s, h| s * h);
    lanes::pairwise(r, v, raised)
}

// A point, its coordinates widened.
#[derive(Clone, Copy)]
struct Place {
    y: f64,
    x: f64,
}

fn widened(y: f32, x: f32) -> Place
    ensures { result ≡ place_of y x }
{
    Place {
        y: ieee::widen(y),
        x: ieee::widen(x),
    }
}

// The lesser of the two and the greater; of two that are level, the first first.
fn in_order(a: f64, b: f64) -> (f64, f64)
    ensures { result ≡ (if le a b then (a, b) else (b, a)) }
{
    if a <= b {
        return (a, b);
    }
    (b, a)
}

#[tactic(auto, unfolding(crate::specs::Stages::ratio_of))]
fn ratio(p: Place) -> f64
    ensures { result ≡ ratio_of p }
{
    let (lesser, greater) = in_order(ieee::abs_f64(p.y), ieee::abs_f64(p.x));
    lesser / greater
}

// The angle of the point (|x|, |y|), at most a quarter turn, from the arctangent v of its ratio.
fn quarter(p: Place, v: f64) -> f64
    ensures { result ≡ (if le (abs_of p.y) (abs_of p.x) then v else pi binary64 ⊘ two ⊖ v) }
{
    if ieee::abs_f64(p.y) <= ieee::abs_f64(p.x) {
        return v;
    }
    PI / 2.0 - v
}

#[tactic(auto, unfolding(crate::specs::Arctangent::mirrored_of))]
fn mirrored(x: f64, v: f64) -> f64
    ensures { result ≡ mirrored_of x v }
{
    if x < 0.0 {
        return PI - v;
    }
    v
}

#[tactic(auto, unfolding(crate::specs::Arctangent::signed_of))]
fn signed(y: f64, v: f64) -> f64
    ensures { result ≡ signed_of y v }
{
    if y < 0.0 {
        return -v;
    }
    v
}

#[tactic(auto, unfolding(crate::specs::Stages::turned_of))]
fn turned(p: Place, v: f64) -> f64
    ensures { result ≡ turned_of p v }
{
    signed(p.y, mirrored(p.x, quarter(p, v)))
}

// The angles of N points by the last rule of atan2, side by side.
fn main_angles<const N: usize>(p: [Place; N]) -> [f64; N]
    ensures { result ≡ map angle_of p.entry }
{
    let v = arctangents(lanes::each(p, ratio));
    lanes::pairwise(p, v, turned)
}

fn both_finite(y: f32, x: f32) -> bool
    ensures { result ≡ (finite y && finite x) }
{
    ieee::is_finite(y) && ieee::is_finite(x)
}

/// The angle of the point (x, y), from the x axis towards the y axis; NaN where one of the two is not finite.
#[tactic(auto, using(ieee::proofs::Specials::nan32_is, crate::proofs::Specials::zero_is), unfolding(crate::specs::Arctangent::atan2_of, crate::specs::Stages::angle_of, ieee::specs::Basic::widen_of))]
pub fn atan2(y: f32, x: f32) -> f32
    ensures { result ≡ atan2_of y x }
{
    if both_finite(y, x) {
        if y == 0.0 && x == 0.0 {
            return 0.0;
        }
        let [v] = main_angles([widened(y, x)]);
        return ieee::narrow(v);
    }
    0.0 / 0.0
}

// Whether none of atan2's rules but the last applies. More is asked, that no y is 0: so three tests of whole arrays
// are enough.
fn all_plain<const N: usize>(ys: [f32; N], xs: [f32; N]) -> bool
    ensures { result ≡ true → list_all (λ (b : Bool). b) (zip2 plain ys.entry xs.entry) ≡ true }
{
    let finite = lanes::all_between(ys, -1.0 / 0.0, 1.0 / 0.0)
        & lanes::all_between(xs, -1.0 / 0.0, 1.0 / 0.0);
    finite & lanes::all_differ(ys, 0.0)
}

// Compiled apart, so that the usual case needs no more registers than it uses.
#[cold]
#[inline(never)]
fn angles_apart<const N: usize>(ys: [f32; N], xs: [f32; N]) -> [f32; N]
    ensures { result ≡ zip2 atan2_of ys.entry xs.entry }
{
    lanes::pairwise(ys, xs, atan2)
}

// The angles of N points. They go side by side where none is a special case, so that none waits for another. The
// bound on N, here and in each function below: N places of two f64 fit in memory, which the types do not say.
fn angles<const N: usize>(ys: [f32; N], xs: [f32; N]) -> [f32; N]
    requires { N < 2 ^ 59 }
    ensures { result ≡ zip2 atan2_of ys.entry xs.entry }
{
    if all_plain(ys, xs) {
        return lanes::narrow(main_angles(lanes::pairwise(ys, xs, widened)));
    }
    angles_apart(ys, xs)
}

/// The angles of N points and of N others. The two series stand one behind the other, so that a processor begins the
/// second while the first, the longest wait, goes on. N is a power of two, at most 64: a vector has as many lanes.
pub fn angles_of_both<const N: usize>(
    ys: [f32; N],
    xs: [f32; N],
    other_ys: [f32; N],
    other_xs: [f32; N],
) -> ([f32; N], [f32; N])
    requires { N < 2 ^ 59 }
    ensures { result
        ≡ (zip2 atan2_of ys.entry xs.entry, zip2 atan2_of other_ys.entry other_xs.entry) }
{
    if all_plain(ys, xs) & all_plain(other_ys, other_xs) {
        let p = lanes::pairwise(ys, xs, widened);
        let q = lanes::pairwise(other_ys, other_xs, widened);
        let r = lanes::each(p, ratio);
        let s = lanes::each(q, ratio);
        let f = arctangents(r);
        let g = arctangents(s);
        let a = lanes::pairwise(p, f, turned);
        let b = lanes::pairwise(q, g, turned);
        return (lanes::narrow(a), lanes::narrow(b));
    }
    (angles(ys, xs), angles(other_ys, other_xs))
}

/// `sin_cos` of N angles, side by side. N is a power of two, at most 64: a vector has as many lanes.
pub fn sines_and_cosines<const N: usize>(t: [f32; N]) -> [SinCos; N]
    requires { N < 2 ^ 59 }
    ensures { result ≡ map sin_cos_of t.entry }
{
    let p = pairs_at(t);
    let sines = lanes::narrow(p.s);
    let cosines = lanes::narrow(p.c);
    lanes::pairwise(sines, cosines, |sin, cos| SinCos { sin, cos })
}

/// `tan` of N angles, side by side. N is a power of two, at most 64: a vector has as many lanes.
pub fn tangents<const N: usize>(t: [f32; N]) -> [f32; N]
    requires { N < 2 ^ 59 }
    ensures { result ≡ map tan_of t.entry }
{
    let p = pairs_at(t);
    lanes::narrow(lanes::pairwise(p.s, p.c, |s, c| s / c))
}
