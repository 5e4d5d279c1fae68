//! The outlines of the crate ffi_outline.

ghost use Rattle.std.specs.Prelude.{◌≡◌};
ghost use Rattle.octant.specs.Octant.{point};
ghost use Rattle.ffi_path.specs.Lent.{path_answer};
ghost use Rattle.ffi_outline.specs.Outlines.{add_of, needed, outline_need_of, conic_need_of, consistency_of};

/// Draws the outline of a shape behind what the record holds: 0, 1 or 5. It has no joint word.
#[unsafe(no_mangle)]
pub extern "C" fn shackletongue_add_to(
    shape: &[f32],
    counts: &mut [u64],
    places: &mut [f32],
    verbs: &mut [u8],
    points: &mut [f32],
) -> u32
    ensures { path_answer result counts.new places.new verbs.new points.new
        ≡ add_of shape.now counts.old places.old verbs.old points.old }
{
    ffi_outline::shackletongue_add_to(shape, counts, places, verbs, points)
}

/// The verbs and the points that the outline of a shape adds.
#[unsafe(no_mangle)]
pub extern "C" fn shackletongue_outline_need(shape: &[f32], need: &mut [u64]) -> u32
    ensures { needed result need.new ≡ outline_need_of shape.now need.old }
{
    ffi_outline::shackletongue_outline_need(shape, need)
}

/// The verbs and the points that a conic adds to the record, with the opening move of an empty one.
#[unsafe(no_mangle)]
pub extern "C" fn shackletongue_conic_need(
    counts: &[u64],
    places: &[f32],
    cx: f32,
    cy: f32,
    x: f32,
    y: f32,
    weight: f32,
    need: &mut [u64],
) -> u32
    ensures { needed result need.new
        ≡ conic_need_of counts.now places.now (point cx cy) (point x y) weight need.old }
{
    ffi_outline::shackletongue_conic_need(counts, places, cx, cy, x, y, weight, need)
}

/// 1 where outline and touch area of the shape are consistent, else 0. The bounds are the first four of
/// the floats that the shape was made of.
#[unsafe(no_mangle)]
pub extern "C" fn shackletongue_is_consistent(sizes: &[f32], shape: &[f32]) -> u32
    ensures { result ≡ consistency_of sizes.now shape.now }
{
    ffi_outline::shackletongue_is_consistent(sizes, shape)
}
