//! The functions of the crate ffi_floats.

ghost use Rattle.std.specs.Prelude.{◌≡◌};
ghost use Rattle.std.specs.Float.{binary32};
ghost use Rattle.ieee.specs.Narrow.{narrow_of};
ghost use Rattle.ieee.specs.Sqrt.{sqrt_of};
ghost use Rattle.exponential.specs.Power.{pow_of};
ghost use Rattle.trigonometry.specs.Sine.{sin_cos_of, tan_of};
ghost use Rattle.trigonometry.specs.Arctangent.{atan2_of};

/// The single nearest to a double.
#[unsafe(no_mangle)]
pub extern "C" fn shackletongue_narrow(x: f64) -> f32
    ensures { result ≡ narrow_of x }
{
    ffi_floats::shackletongue_narrow(x)
}

/// The square root.
#[unsafe(no_mangle)]
pub extern "C" fn shackletongue_sqrt(x: f32) -> f32
    ensures { result ≡ sqrt_of binary32 x }
{
    ffi_floats::shackletongue_sqrt(x)
}

/// b to the power y.
#[unsafe(no_mangle)]
pub extern "C" fn shackletongue_pow(b: f32, y: f32) -> f32
    ensures { result ≡ pow_of b y }
{
    ffi_floats::shackletongue_pow(b, y)
}

/// The sine and the cosine go to the two places lent.
#[unsafe(no_mangle)]
pub extern "C" fn shackletongue_sin_cos(t: f32, sin: &mut f32, cos: &mut f32)
    ensures sine { sin.new ≡ (sin_cos_of t).sin }
    ensures cosine { cos.new ≡ (sin_cos_of t).cos }
{
    ffi_floats::shackletongue_sin_cos(t, sin, cos);
}

/// The tangent.
#[unsafe(no_mangle)]
pub extern "C" fn shackletongue_tan(t: f32) -> f32
    ensures { result ≡ tan_of t }
{
    ffi_floats::shackletongue_tan(t)
}

/// The angle of the point (x, y).
#[unsafe(no_mangle)]
pub extern "C" fn shackletongue_atan2(y: f32, x: f32) -> f32
    ensures { result ≡ atan2_of y x }
{
    ffi_floats::shackletongue_atan2(y, x)
}

/// The version that the library was built as.
#[unsafe(no_mangle)]
pub extern "C" fn shackletongue_version() -> u32
    ensures { result ≡ 2 }
{
    ffi_floats::shackletongue_version()
}
