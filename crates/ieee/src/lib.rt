//! Operations of IEEE 754: the changes of width, the square root, and the simple ones, as absolute value and minimum.
//! Nothing is cast with loss. Each takes every number, but for `narrow_regular`, which asks for a regular one.

#![tactic(auto)]

ghost use Rattle.std.specs.Prelude.{◌≡◌, ◌+◌, ◌-◌, ◌*◌, ◌/◌, ◌%◌, ◌^◌, ◌<◌, ◌≤◌, true, to_bits};
ghost use Rattle.std.specs.Float.Ieee.Nearest.{closest};
ghost use Rattle.std.specs.Float.Ieee.Scale.{finite};
ghost use Rattle.std.specs.Float.{binary32, binary64, NotNan};
ghost use Rattle.ieee.specs.Basic.{widen_of, abs_of, min_of, max_of, clamp_of};
ghost use Rattle.ieee.specs.Narrow.{narrow_of, regular};
ghost use Rattle.ieee.specs.Sqrt.{sqrt_of};

/// The same number, with the same sign: each f32 is an f64.
#[tactic(auto, unfolding(crate::specs::Basic::widen_of))]
pub fn widen(x: f32) -> f64
    ensures { result ≡ widen_of x }
{
    std::num::f32_to_f64_with_nan(x)
}

/// Neither an infinity nor a NaN.
pub fn is_finite(x: f32) -> bool
    ensures { result ≡ finite x }
{
    -1.0 / 0.0 < x && x < 1.0 / 0.0
}

/// The absolute value. By the pattern, whose sign is cleared: no branch turns on the sign.
pub fn abs(x: f32) -> f32
    ensures { result ≡ abs_of x }
{
    if x != x {
        return x;
    }
    f32::from_bits(f32::to_bits(x) % 0x8000_0000)
}

/// The absolute value.
#[tactic(auto, using(crate::proofs::Simple::with_plus))]
pub fn abs_f64(x: f64) -> f64
    ensures { result ≡ abs_of x }
{
    x.abs()
}

/// The lesser of two, or the number beside a NaN. Of 0 and -0 the first, where the library's `min` may answer either.
#[tactic(auto, unfolding(crate::specs::Basic::min_of))]
pub fn min(a: f32, b: f32) -> f32
    ensures { result ≡ min_of a b }
{
    if a != a {
        return b;
    }
    if b < a {
        return b;
    }
    a
}

/// The greater of two, or the number beside a NaN. Of 0 and -0 the first, as `min`.
#[tactic(auto, unfolding(crate::specs::Basic::max_of))]
pub fn max(a: f32, b: f32) -> f32
    ensures { result ≡ max_of a b }
{
    if a != a {
        return b;
    }
    if a < b {
        return b;
    }
    a
}

/// x, or the end of the range from lo to hi that it is past; a NaN stays. The library's `clamp` asks that lo is at
/// most hi.
#[tactic(auto, unfolding(crate::specs::Basic::clamp_of))]
pub fn clamp(x: f32, lo: f32, hi: f32) -> f32
    ensures { result ≡ clamp_of x lo hi }
{
    if x < lo {
        return lo;
    }
    if x > hi {
        return hi;
    }
    x
}

// The pattern of the f32 nearest to the f64 with the pattern a, both without their signs, where the f64 is at least
// the least normal f32 and below 2^128. The pattern itself is rounded: a carry out of the digits is one more in the
// exponent, and one out of the largest exponent makes the infinity's pattern.
fn rounded_pattern(a: u64) -> u64
    requires at_least { 0x3810_0000_0000_0000 ≤ a }
    requires below { a < 0x47f0_0000_0000_0000 }
    ensures { result ≡ (a / 2 ^ 52 - 897) * 2 ^ 23 + closest (a % 2 ^ 52 + 2 ^ 52) (2 ^ 29) }
{
    ((a + 0xfff_ffff + (a >> 29) % 2) >> 29) - 0x1_c000_0000
}

// The nearest f32 by x's pattern, with no branch.
fn narrow_by_pattern(x: f64) -> f32
    requires number { NotNan x }
    requires at_least { 0x3810_0000_0000_0000 ≤ to_bits binary64 x % 2 ^ 63 }
    requires below { to_bits binary64 x % 2 ^ 63 < 0x47f0_0000_0000_0000 }
    ensures { result ≡ narrow_of x }
{
    let bits: u64 = f64::to_bits(x);
    let p = rounded_pattern(bits % 0x8000_0000_0000_0000);
    f32::from_bits(((bits >> 63) * 0x8000_0000 + p) as u32)
}

/// The f32 nearest to x. Where x is in the range of the normal f32, the usual case, by its pattern, which is quicker.
#[tactic(auto, unfolding(crate::specs::Narrow::narrow_of))]
pub fn narrow(x: f64) -> f32
    ensures { result ≡ narrow_of x }
{
    if x == x {
        let size = f64::to_bits(x) % 0x8000_0000_0000_0000;
        if std::num::wrapping_sub_u64(size, 0x3810_0000_0000_0000) < 0xfe0_0000_0000_0000 {
            return narrow_by_pattern(x);
        }
    }
    std::num::nearest_f64_to_f32_with_nan(x)
}

/// `narrow` of a number that is regular. It has no branch, so that several go side by side.
pub fn narrow_regular(x: f64) -> f32
    requires { regular x ≡ true }
    ensures { result ≡ narrow_of x }
{
    narrow_by_pattern(x)
}

/// The square root. The language's own, which `sqrt_of` says in whole numbers.
pub fn sqrt(x: f32) -> f32
    ensures { result ≡ sqrt_of binary32 x }
{
    x.sqrt()
}
