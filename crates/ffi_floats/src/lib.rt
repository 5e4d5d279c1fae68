//! The elementary functions for programs in C and Rust, under names of their own. Each is the library's function
//! of the same name, for every argument.

#![tactic(auto)]

ghost use Rattle.std.specs.Prelude.{◌≡◌};
ghost use Rattle.std.specs.Float.{binary32};
ghost use Rattle.ieee.specs.Narrow.{narrow_of};
ghost use Rattle.ieee.specs.Sqrt.{sqrt_of};
ghost use Rattle.exponential.specs.Power.{pow_of};
ghost use Rattle.trigonometry.specs.Sine.{sin_cos_of, tan_of};
ghost use Rattle.trigonometry.specs.Arctangent.{atan2_of};

/// What the functions for other languages answer, beside the refusals' numbers, where a slice that is lent has the
/// wrong length.
pub const WRONG_LENGTH: u32 = 100;

/// What they answer where there is nothing to answer.
pub const NONE: u32 = 101;

/// The version of the exported functions, of all crates together, which include/shackletongue.h declares.
pub const VERSION: u32 = 2;

/// The single nearest to a double.
pub fn shackletongue_narrow(x: f64) -> f32
    ensures { result ≡ narrow_of x }
{
    ieee::narrow(x)
}

/// The square root.
pub fn shackletongue_sqrt(x: f32) -> f32
    ensures { result ≡ sqrt_of binary32 x }
{
    ieee::sqrt(x)
}

/// b to the power y.
pub fn shackletongue_pow(b: f32, y: f32) -> f32
    ensures { result ≡ pow_of b y }
{
    exponential::pow(b, y)
}

/// The sine and the cosine go to the two places lent.
pub fn shackletongue_sin_cos(t: f32, sin: &mut f32, cos: &mut f32)
    ensures sine { sin.new ≡ (sin_cos_of t).sin }
    ensures cosine { cos.new ≡ (sin_cos_of t).cos }
{
    let r = trigonometry::sin_cos(t);
    *sin = r.sin;
    *cos = r.cos;
}

/// The tangent.
pub fn shackletongue_tan(t: f32) -> f32
    ensures { result ≡ tan_of t }
{
    trigonometry::tan(t)
}

/// The angle of the point (x, y).
pub fn shackletongue_atan2(y: f32, x: f32) -> f32
    ensures { result ≡ atan2_of y x }
{
    trigonometry::atan2(y, x)
}

/// The version that the library was built as.
pub fn shackletongue_version() -> u32
    ensures { result ≡ 2 }
{
    VERSION
}
