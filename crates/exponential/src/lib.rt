//! The power function. The steps are f64, each rounded once in the order that the definitions of specs/ have; only
//! the result is narrowed.

#![tactic(auto)]

ghost use Rattle.std.specs.Prelude.{◌≡◌, map, All, Float, false, ◌&&◌, T, pos, ◌+ℤ◌, ◌<◌, ◌^◌, if◌then◌else◌};
ghost use Rattle.std.specs.Float.Ieee.Positive.{positive};
ghost use Rattle.std.specs.Float.{binary32, binary64, inf};
ghost use Rattle.std.specs.Float.Ieee.{ne, fits, of_int, minus};
ghost use Rattle.ieee.specs.Basic.{widen_of};
ghost use Rattle.ieee.specs.Binary32.{zero};
ghost use Rattle.exponential.specs.Logarithm.{ln_at, ln_of};
ghost use Rattle.exponential.specs.Exponential.{floor_of, within, exp_of};
ghost use Rattle.exponential.specs.Power.{main_of, pow_of};
ghost use Rattle.std.specs.Simd.Lanes.{zip2};
ghost use Rattle.std.specs.List.{list_all};
ghost use Rattle.exponential.specs.Plain.{IsInRange, SplitAt, summed_of, moderate, scaled_of, plain_base, plain_exponent};
ghost use Rattle.exponential.specs.declared.LogParts.{LogParts};
ghost use Rattle.exponential.specs.declared.Reduced.{Reduced};

use std::f64::consts::LN_2;

// 2^52 + 2^51 + 1023. A sum of it and a number within 1000 of 0 has no digits below 1: it is rounded
// to a whole number, and its pattern ends in that number, 1023 more.
const BIAS: f64 = 6755399441056767.0;

// b - 1023. The pattern is that of 2^52 + b: made so, not by a conversion, several are made at once.
fn unbiased(b: u64) -> f64
    requires { b < 4096 }
    ensures { result ≡ of_int binary64 (minus b 1023) }
{
    f64::from_bits(0x4330_0000_0000_0000 + b) - 4503599627371519.0
}

// What ln is worked out from: u is f * 2^e, with f from 0.75 and below 1.5.
#[derive(Clone, Copy)]
struct Parts {
    f: f64,
    e: f64,
}

// The digits of u's pattern are those of f, and its exponent is e + 1023. The first digit after the point says
// whether f is 1.5 at least; then f is halved by the exponent of its pattern.
fn parts_of(u: f64) -> Parts
    requires is_single { T (fits binary32 u) }
    requires is_positive { T (positive u) }
    ensures { ln_at result.f result.e ≡ ln_of u }
{
    let bits: u64 = f64::to_bits(u);
    let h: u64 = (bits >> 51) % 2;
    Parts {
        f: f64::from_bits(bits % 0x10_0000_0000_0000 + (1023 - h) * 0x10_0000_0000_0000),
        e: unbiased((bits >> 52) + h),
    }
}

// What the logarithm's series is summed at, (f - 1) / (f + 1), and e.
#[derive(Clone, Copy)]
struct LogParts {
    s: f64,
    e: f64,
}

// `ieee::widen` of a number: there is no NaN to test for.
fn wide(x: f32) -> f64
    requires { ne x x ≡ false }
    ensures { result ≡ widen_of x }
{
    x as f64
}

#[tactic(auto, unfolding(crate::specs::Logarithm::ln_at, crate::specs::Plain::summed_of))]
fn log_parts_of(b: f32) -> LogParts
    requires { T (positive b) }
    ensures { SplitAt result.s result.e (widen_of b) }
{
    let p = parts_of(wide(b));
    LogParts {
        s: (p.f - 1.0) / (p.f + 1.0),
        e: p.e,
    }
}

// The logarithms of N numbers that are taken apart, side by side.
fn summed<const N: usize>(p: [LogParts; N]) -> [f64; N]
    ensures { result ≡ map (λ (x : LogParts). summed_of x.s x.e) p.entry }
{
    let c = series::odd_reciprocals();
    let h = series::horner(&c[..12], lanes::each(p, |p| p.s * p.s));
    lanes::pairwise(p, h, |p, h| p.e * LN_2 + (2.0 * p.s) * h)
}

// The logarithms of N numbers, side by side. The bound on N, here and in each function below that has it: N records
// of two f64 fit in memory, which the types of the arrays of floats do not say.
fn logarithms<const N: usize>(b: [f32; N]) -> [f64; N]
    requires few { N < 2 ^ 59 }
    requires above_zero { All (λ (x : Float). T (positive x)) b }
    ensures { result ≡ map (λ (x : Float). ln_of (widen_of x)) b.entry }
{
    summed(lanes::each(b, log_parts_of))
}

// The same of N numbers and of N others. The two series stand one behind the other, so that a processor begins the
// second while the first, the longest wait, goes on.
fn logarithms_of_both<const N: usize>(b: [f32; N], c: [f32; N]) -> ([f64; N], [f64; N])
    requires few { N < 2 ^ 59 }
    requires above_zero { All (λ (x : Float). T (positive x)) b }
    requires others_above_zero { All (λ (x : Float). T (positive x)) c }
    ensures { result
        ≡ (map (λ (x : Float). ln_of (widen_of x)) b.entry, map (λ (x : Float). ln_of (widen_of x)) c.entry) }
{
    let p = lanes::each(b, log_parts_of);
    let q = lanes::each(c, log_parts_of);
    (summed(p), summed(q))
}

// The greatest whole number not above q, and BIAS more.
#[tactic(auto, using(crate::proofs::Floors::floor_next, crate::proofs::Floors::floor_here))]
fn biased_floor(q: f64) -> f64
    requires { T (within q) }
    ensures { result ≡ of_int binary64 (floor_of q +ℤ pos 6755399441056767) }
{
    let w = q + BIAS;
    if w - BIAS > q {
        return w - 1.0;
    }
    w
}

// What exp is worked out from: t is r + g * LN_2, and power is 2^g.
#[derive(Clone, Copy)]
struct Reduced {
    r: f64,
    power: f64,
}

fn reduce(t: f64) -> Reduced
    requires { IsInRange t }
    ensures { scaled_of result.r result.power ≡ exp_of t }
{
    let w = biased_floor(t / LN_2 + 0.5);
    Reduced {
        r: t - (w - BIAS) * LN_2,
        power: f64::from_bits(f64::to_bits(w) % 0x800 * 0x10_0000_0000_0000),
    }
}

// The exponentials of N numbers that are reduced, side by side.
fn scaled<const N: usize>(p: [Reduced; N]) -> [f64; N]
    ensures { result ≡ map (λ (x : Reduced). scaled_of x.r x.power) p.entry }
{
    let c = series::factorial_reciprocals();
    let h = series::horner(&c[..14], lanes::each(p, |p| p.r));
    lanes::pairwise(h, p, |h, p| h * p.power)
}

#[tactic(auto, using(ieee::proofs::Specials::nan64_is, ieee::proofs::Specials::inf64_is), unfolding(crate::specs::Exponential::exp_of))]
fn exp(t: f64) -> f64
    ensures { result ≡ exp_of t }
{
    if t != t {
        return 0.0 / 0.0;
    }
    if t > 100.0 {
        return 1.0 / 0.0;
    }
    if t < -110.0 {
        return 0.0;
    }
    let [e] = scaled([reduce(t)]);
    e
}

fn all_moderate<const N: usize>(t: [f64; N]) -> bool
    ensures { result ≡ list_all moderate t.entry }
{
    lanes::all_between_f64(t, -110.0, 100.0)
}

// Compiled apart, so that the usual case needs no more registers than it uses; `powers_apart` too.
#[cold]
#[inline(never)]
fn exponentials_apart<const N: usize>(t: [f64; N]) -> [f64; N]
    ensures { result ≡ map exp_of t.entry }
{
    lanes::each(t, exp)
}

// Side by side where each is moderate.
fn exponentials<const N: usize>(t: [f64; N]) -> [f64; N]
    requires { N < 2 ^ 59 }
    ensures { result ≡ map exp_of t.entry }
{
    if all_moderate(t) {
        return scaled(lanes::each(t, reduce));
    }
    exponentials_apart(t)
}

fn exponentials_of_both<const N: usize>(t: [f64; N], u: [f64; N]) -> ([f64; N], [f64; N])
    requires { N < 2 ^ 59 }
    ensures { result ≡ (map exp_of t.entry, map exp_of u.entry) }
{
    if all_moderate(t) & all_moderate(u) {
        let p = lanes::each(t, reduce);
        let q = lanes::each(u, reduce);
        return (scaled(p), scaled(q));
    }
    (exponentials_apart(t), exponentials_apart(u))
}

#[tactic(auto, using(ieee::proofs::Specials::inf32_is))]
fn zero_or_infinity(is_zero: bool) -> f32
    ensures { result ≡ (if is_zero then zero else inf false) }
{
    if is_zero {
        return 0.0f32;
    }
    1.0 / 0.0
}

// The last rule of pow.
fn main_powers<const N: usize>(bases: [f32; N], exponents: [f32; N]) -> [f32; N]
    requires few { N < 2 ^ 59 }
    requires above_zero { All (λ (x : Float). T (positive x)) bases }
    requires numbers { All (λ (x : Float). ne x x ≡ false) exponents }
    ensures { result ≡ zip2 main_of bases.entry exponents.entry }
{
    let l = logarithms(bases);
    let y = lanes::each(exponents, wide);
    lanes::narrow(exponentials(lanes::pairwise(l, y, |l, y| y * l)))
}

// The last rule of pow, twice.
fn main_powers_of_both<const N: usize>(
    bases: [f32; N],
    exponents: [f32; N],
    other_bases: [f32; N],
    other_exponents: [f32; N],
) -> ([f32; N], [f32; N])
    requires few { N < 2 ^ 59 }
    requires above_zero { All (λ (x : Float). T (positive x)) bases }
    requires others_above_zero { All (λ (x : Float). T (positive x)) other_bases }
    requires numbers { All (λ (x : Float). ne x x ≡ false) exponents }
    requires other_numbers { All (λ (x : Float). ne x x ≡ false) other_exponents }
    ensures { result
        ≡ (zip2 main_of bases.entry exponents.entry, zip2 main_of other_bases.entry other_exponents.entry) }
{
    let (k, l) = logarithms_of_both(bases, other_bases);
    let t = lanes::pairwise(k, lanes::each(exponents, wide), |k, y| y * k);
    let u = lanes::pairwise(l, lanes::each(other_exponents, wide), |l, x| x * l);
    let (e, f) = exponentials_of_both(t, u);
    (lanes::narrow(e), lanes::narrow(f))
}

/// base to the power of exponent. NaN where one of the two is a NaN, and for a base below 0.
#[tactic(auto, using(ieee::proofs::Specials::nan32_is), unfolding(crate::specs::Power::pow_of))]
pub fn pow(base: f32, exponent: f32) -> f32
    ensures { result ≡ pow_of base exponent }
{
    if base != base {
        return 0.0 / 0.0;
    }
    if exponent != exponent {
        return 0.0 / 0.0;
    }
    if base < 0.0 {
        return 0.0 / 0.0;
    }
    if base == 1.0 {
        return 1.0f32;
    }
    if exponent == 0.0 {
        return 1.0f32;
    }
    if base == 0.0 {
        return zero_or_infinity(exponent > 0.0);
    }
    if base.is_infinite() {
        return zero_or_infinity(!(exponent > 0.0));
    }
    if exponent.is_infinite() {
        return zero_or_infinity((base < 1.0) == (exponent > 0.0));
    }
    let [p] = main_powers([base], [exponent]);
    p
}

// Whether of these none of pow's rules but the last applies.
fn all_plain<const N: usize>(bases: [f32; N], exponents: [f32; N]) -> bool
    ensures { result
        ≡ (list_all plain_base bases.entry && list_all plain_exponent exponents.entry) }
{
    let base = lanes::all_between(bases, 0.0, 1.0 / 0.0) & lanes::all_differ(bases, 1.0);
    let exponent = lanes::all_between(exponents, -1.0 / 0.0, 1.0 / 0.0)
        & lanes::all_differ(exponents, 0.0);
    base & exponent
}

#[cold]
#[inline(never)]
fn powers_apart<const N: usize>(bases: [f32; N], exponents: [f32; N]) -> [f32; N]
    ensures { result ≡ zip2 pow_of bases.entry exponents.entry }
{
    lanes::pairwise(bases, exponents, pow)
}

/// The powers of N bases, each by the exponent at its place. They go side by side where none is a special case, so
/// that none waits for another. N is a power of two, at most 64: a vector has as many lanes.
pub fn powers<const N: usize>(bases: [f32; N], exponents: [f32; N]) -> [f32; N]
    requires { N < 2 ^ 59 }
    ensures { result ≡ zip2 pow_of bases.entry exponents.entry }
{
    if all_plain(bases, exponents) {
        return main_powers(bases, exponents);
    }
    powers_apart(bases, exponents)
}

/// `powers` of N bases and of N others. One or two go side by side with as many others where none is a special case,
/// the series of the one behind those of the other: they alone are a chain that leaves a processor idle, which more
/// of them keep busy.
pub fn powers_of_both<const N: usize>(
    bases: [f32; N],
    exponents: [f32; N],
    other_bases: [f32; N],
    other_exponents: [f32; N],
) -> ([f32; N], [f32; N])
    requires { N < 2 ^ 59 }
    ensures { result
        ≡ (zip2 pow_of bases.entry exponents.entry, zip2 pow_of other_bases.entry other_exponents.entry) }
{
    if N > 2 {
        return (
            powers(bases, exponents),
            powers(other_bases, other_exponents),
        );
    }
    if all_plain(bases, exponents) & all_plain(other_bases, other_exponents) {
        return main_powers_of_both(bases, exponents, other_bases, other_exponents);
    }
    (
        powers(bases, exponents),
        powers(other_bases, other_exponents),
    )
}
