//! The readings of the crate ffi_reader.

ghost use Rattle.std.specs.Prelude.{◌≡◌};
ghost use Rattle.ffi_reader.specs.Segments.{read_answer, read_of, box_answer, box_of};

/// Reads the segment at the cursor: 0, 1 or 6. The cursor moves to the next segment and gets the kind of
/// this one (0 move, 1 line, 2 quad, 3 cubic, 4 close, 5 end).
#[unsafe(no_mangle)]
pub extern "C" fn shackletongue_read(
    counts: &[u64],
    places: &[f32],
    verbs: &[u8],
    points: &[f32],
    cursor: &mut [u64],
    segment: &mut [f32],
) -> u32
    ensures { read_answer result cursor.new segment.new
        ≡ read_of counts.now places.now verbs.now points.now cursor.old segment.old }
{
    ffi_reader::shackletongue_read(counts, places, verbs, points, cursor, segment)
}

/// The least box round all points: 0, 1 or 6, and then the index of the verb goes to the place. 101 where
/// there is no finite point.
#[unsafe(no_mangle)]
pub extern "C" fn shackletongue_box(
    counts: &[u64],
    places: &[f32],
    verbs: &[u8],
    points: &[f32],
    rect: &mut [f32],
    place: &mut [u64],
) -> u32
    ensures { box_answer result rect.new place.new
        ≡ box_of counts.now places.now verbs.now points.now rect.old place.old }
{
    ffi_reader::shackletongue_box(counts, places, verbs, points, rect, place)
}
