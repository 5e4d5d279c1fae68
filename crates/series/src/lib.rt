//! Horner's scheme, and the two families of coefficients that the power series of the elementary functions draw on.

#![tactic(auto)]

ghost use Rattle.std.specs.Prelude.{◌≡◌, map};
ghost use Rattle.std.specs.Float.{binary64};
ghost use Rattle.series.specs.Horner.{horner_of};
ghost use Rattle.series.specs.Coefficients.{terms, odd_reciprocal, factorial_reciprocal};

use std::simd::prelude::*;

/// The values at N places of the polynomial with the coefficients cs, from the constant term up. They go side by
/// side, as vectors, so N is a power of two, at most 64: of an array the compiler makes one place after another, and
/// within a place each step waits for the one before.
pub fn horner<const N: usize>(cs: &[f64], z: [f64; N]) -> [f64; N]
    ensures { result ≡ map (horner_of binary64 cs.now) z.entry }
{
    let Some((&last, rest)) = cs.split_last() else {
        return [0.0; N];
    };
    let z = Simd::<f64, N>::from_array(z);
    let mut h = Simd::<f64, N>::splat(last);
    for &c in rest.iter().rev() {
        h = h * z + Simd::<f64, N>::splat(c);
    }
    h.to_array()
}

/// 1 / (2k + 1) for k from 0 to 25.
pub fn odd_reciprocals() -> [f64; 26]
    ensures { result ≡ terms odd_reciprocal 26 }
{
    [
        1.0 / 1.0,
        1.0 / 3.0,
        1.0 / 5.0,
        1.0 / 7.0,
        1.0 / 9.0,
        1.0 / 11.0,
        1.0 / 13.0,
        1.0 / 15.0,
        1.0 / 17.0,
        1.0 / 19.0,
        1.0 / 21.0,
        1.0 / 23.0,
        1.0 / 25.0,
        1.0 / 27.0,
        1.0 / 29.0,
        1.0 / 31.0,
        1.0 / 33.0,
        1.0 / 35.0,
        1.0 / 37.0,
        1.0 / 39.0,
        1.0 / 41.0,
        1.0 / 43.0,
        1.0 / 45.0,
        1.0 / 47.0,
        1.0 / 49.0,
        1.0 / 51.0,
    ]
}

/// 1 / k! for k from 0 to 15.
pub fn factorial_reciprocals() -> [f64; 16]
    ensures { result ≡ terms factorial_reciprocal 16 }
{
    [
        1.0 / 1.0,
        1.0 / 1.0,
        1.0 / 2.0,
        1.0 / 6.0,
        1.0 / 24.0,
        1.0 / 120.0,
        1.0 / 720.0,
        1.0 / 5040.0,
        1.0 / 40320.0,
        1.0 / 362880.0,
        1.0 / 3628800.0,
        1.0 / 39916800.0,
        1.0 / 479001600.0,
        1.0 / 6227020800.0,
        1.0 / 87178291200.0,
        1.0 / 1307674368000.0,
    ]
}
