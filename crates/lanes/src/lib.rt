//! Numbers side by side in an array, each treated alike: none waits for another, so that a processor works at several
//! at once. How many there are is a parameter. `each`, `pairwise` and `all` take any number; the others are made of
//! vectors, of which there are those of 1, 2, 4, 8, 16, 32 and 64 lanes.

#![tactic(auto)]

ghost use Rattle.std.specs.Prelude.{◌≡◌, ◌<◌, ◌&&◌, map, All, Bool, Float, slice_index_or};
ghost use Rattle.std.specs.Float.Ieee.{lt, ne};
ghost use Rattle.std.specs.List.{AllZip, list_all};
ghost use Rattle.std.specs.Simd.Lanes.{zip2};
ghost use Rattle.ieee.specs.Narrow.{narrow_of, regular};

use std::simd::prelude::*;

// The bounds of `regular`: 2^-126, the least normal f32, and 2^128, which is past the largest.
const LEAST_NORMAL: f64 = 1.1754943508222875e-38;

const TWO_TO_128: f64 = 3.402823669209385e38;

/// What f makes of each. Not the array's own `map`, which asks more of callers: that an iterator over the array fits
/// in memory.
#[inline(always)]
pub fn each<A: Copy, B, F: Fn(A) -> B, const N: usize>(x: [A; N], f: F) -> [B; N]
    requires { All (F.pre f) x }
    ensures values { AllZip (F.post f) x result }
    ensures mapped { (g : A → B)
        → ((a : A) (b : B) → F.post f a b → b ≡ g a)
        → result ≡ map g x }
{
    std::array::from_fn(
        |i: usize| -> B
            requires within { i < N }
            requires callable { (d : A) → F.pre f (slice_index_or x i d) }
            ensures { (d : A) → F.post f (slice_index_or x i d) result }
        { f(x[i]) },
    )
}

/// What f makes of each two at the same place.
#[inline(always)]
pub fn pairwise<A: Copy, B: Copy, C, F: Fn(A, B) -> C, const N: usize>(
    x: [A; N],
    y: [B; N],
    f: F,
) -> [C; N]
    requires { (a : A) (b : B) → F.pre f a b }
    ensures { (g : A → B → C)
        → ((a : A) (b : B) (c : C) → F.post f a b c → c ≡ g a b)
        → result ≡ zip2 g x y }
{
    std::array::from_fn(
        |i: usize| -> C
            requires within { i < N }
            requires callable { (a : A) (b : B) → F.pre f a b }
            ensures { (d : A) (e : B)
                → F.post f (slice_index_or x i d) (slice_index_or y i e) result }
        { f(x[i], y[i]) },
    )
}

/// Whether f says yes of each. By `&`, not `&&`: as many tests, and one branch.
pub fn all<A: Copy, F: Fn(A) -> bool, const N: usize>(x: [A; N], f: F) -> bool
    requires { (a : A) → F.pre f a }
    ensures { (p : A → Bool)
        → ((a : A) (b : Bool) → F.post f a b → b ≡ p a)
        → result ≡ list_all p x }
{
    let mut all = true;
    for a in &x {
        all = all & f(*a);
    }
    all
}

/// Whether each is above `low` and below `high`; a NaN is not. By vectors, so N is a power of two, at most 64: the
/// compiler takes booleans in arrays apart and puts them together again one by one.
pub fn all_between<const N: usize>(x: [f32; N], low: f32, high: f32) -> bool
    ensures { result ≡ list_all (λ (a : Float). lt low a && lt a high) x.entry }
{
    let v = Simd::<f32, N>::from_array(x);
    let above = Simd::<f32, N>::splat(low).simd_lt(v);
    let below = v.simd_lt(Simd::<f32, N>::splat(high));
    (above & below).to_simd().reduce_and() < 0
}

/// `all_between` of numbers of twice the width: vectors of either are types of their own.
pub fn all_between_f64<const N: usize>(x: [f64; N], low: f64, high: f64) -> bool
    ensures { result ≡ list_all (λ (a : Float). lt low a && lt a high) x.entry }
{
    let v = Simd::<f64, N>::from_array(x);
    let above = Simd::<f64, N>::splat(low).simd_lt(v);
    let below = v.simd_lt(Simd::<f64, N>::splat(high));
    (above & below).to_simd().reduce_and() < 0
}

/// Whether none is this number. N is a power of two, at most 64.
pub fn all_differ<const N: usize>(x: [f32; N], number: f32) -> bool
    ensures { result ≡ list_all (λ (a : Float). ne a number) x.entry }
{
    let differ = Simd::<f32, N>::from_array(x).simd_ne(Simd::<f32, N>::splat(number));
    differ.to_simd().reduce_and() < 0
}

// Each is negated where it is below 0: its size, whatever the sign of a zero.
fn all_regular<const N: usize>(x: [f64; N]) -> bool
    ensures { result ≡ list_all regular x.entry }
{
    let v = Simd::<f64, N>::from_array(x);
    let sizes = v.simd_lt(Simd::<f64, N>::splat(0.0)).select(-v, v);
    all_between_f64(sizes.to_array(), LEAST_NORMAL, TWO_TO_128)
}

// Compiled apart, so that the usual case needs no more registers than it uses.
#[cold]
#[inline(never)]
fn narrow_apart<const N: usize>(x: [f64; N]) -> [f32; N]
    ensures { result ≡ map narrow_of x.entry }
{
    each(x, ieee::narrow)
}

/// `ieee::narrow` of each. One test decides whether all are regular, the usual case: then none of them branches, and
/// a processor rounds them at once. N is a power of two, at most 64.
pub fn narrow<const N: usize>(x: [f64; N]) -> [f32; N]
    ensures { result ≡ map narrow_of x.entry }
{
    if all_regular(x) {
        return each(x, ieee::narrow_regular);
    }
    narrow_apart(x)
}
