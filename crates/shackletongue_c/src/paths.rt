//! The building calls of the crate ffi_path.

ghost use Rattle.std.specs.Prelude.{◌≡◌};
ghost use Rattle.ffi_path.specs.Lent.{point, path_answer, lent_step};

use calls::Call;

#[unsafe(no_mangle)]
pub extern "C" fn shackletongue_move_to(
    counts: &mut [u64],
    places: &mut [f32],
    verbs: &mut [u8],
    points: &mut [f32],
    x: f32,
    y: f32,
) -> u32
    ensures { path_answer result counts.new places.new verbs.new points.new
        ≡ lent_step (Call.MoveTo (point x y))
        counts.old places.old verbs.old points.old }
{
    ffi_path::shackletongue_move_to(counts, places, verbs, points, x, y)
}

#[unsafe(no_mangle)]
pub extern "C" fn shackletongue_line_to(
    counts: &mut [u64],
    places: &mut [f32],
    verbs: &mut [u8],
    points: &mut [f32],
    x: f32,
    y: f32,
) -> u32
    ensures { path_answer result counts.new places.new verbs.new points.new
        ≡ lent_step (Call.LineTo (point x y))
        counts.old places.old verbs.old points.old }
{
    ffi_path::shackletongue_line_to(counts, places, verbs, points, x, y)
}

#[unsafe(no_mangle)]
pub extern "C" fn shackletongue_quad_to(
    counts: &mut [u64],
    places: &mut [f32],
    verbs: &mut [u8],
    points: &mut [f32],
    cx: f32,
    cy: f32,
    x: f32,
    y: f32,
) -> u32
    ensures { path_answer result counts.new places.new verbs.new points.new
        ≡ lent_step (Call.QuadTo (point cx cy) (point x y))
        counts.old places.old verbs.old points.old }
{
    ffi_path::shackletongue_quad_to(counts, places, verbs, points, cx, cy, x, y)
}

/// The joint word is the third of the counts.
#[unsafe(no_mangle)]
pub extern "C" fn shackletongue_conic_to(
    counts: &mut [u64],
    places: &mut [f32],
    verbs: &mut [u8],
    points: &mut [f32],
    cx: f32,
    cy: f32,
    x: f32,
    y: f32,
    weight: f32,
) -> u32
    ensures { path_answer result counts.new places.new verbs.new points.new
        ≡ lent_step (Call.ConicTo (point cx cy) (point x y) weight)
        counts.old places.old verbs.old points.old }
{
    ffi_path::shackletongue_conic_to(counts, places, verbs, points, cx, cy, x, y, weight)
}

#[unsafe(no_mangle)]
pub extern "C" fn shackletongue_cubic_to(
    counts: &mut [u64],
    places: &mut [f32],
    verbs: &mut [u8],
    points: &mut [f32],
    ax: f32,
    ay: f32,
    bx: f32,
    by: f32,
    x: f32,
    y: f32,
) -> u32
    ensures { path_answer result counts.new places.new verbs.new points.new
        ≡ lent_step (Call.CubicTo (point ax ay) (point bx by) (point x y))
        counts.old places.old verbs.old points.old }
{
    ffi_path::shackletongue_cubic_to(counts, places, verbs, points, ax, ay, bx, by, x, y)
}

#[unsafe(no_mangle)]
pub extern "C" fn shackletongue_close(
    counts: &mut [u64],
    places: &mut [f32],
    verbs: &mut [u8],
    points: &mut [f32],
) -> u32
    ensures { path_answer result counts.new places.new verbs.new points.new
        ≡ lent_step Call.Close
        counts.old places.old verbs.old points.old }
{
    ffi_path::shackletongue_close(counts, places, verbs, points)
}
