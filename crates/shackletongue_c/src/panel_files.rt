//! The panel files of the crate ffi_panel.

ghost use Rattle.std.specs.Prelude.{◌≡◌};
ghost use Rattle.octant.specs.Octant.{point};
ghost use Rattle.ffi_panel.specs.Asking.{place_left, slices_left, record_of, put_of, place_of_touch, places_of_touches};

/// The record at the offset in place[0]: then place is the offset of the next one and the kind, 1 button,
/// 2 touch, 0 at the end of the file; its 12 or 2 floats go to the front of floats. With a 7,
/// place[0] is the offset of the first broken record.
#[unsafe(no_mangle)]
pub extern "C" fn shackletongue_record(file: &[u8], place: &mut [u64], floats: &mut [f32]) -> u32
    ensures { slices_left result place.new floats.new ≡ record_of file.now place.old floats.old }
{
    ffi_panel::shackletongue_record(file, place, floats)
}

/// Writes the record of the kind in place[1], of a button's 12 floats or in front of them a touch's two, at the offset
/// in place[0], which becomes the one behind it. 7 where the kind is neither; 5 where the record does not end within
/// the file and within 65,536 bytes.
#[unsafe(no_mangle)]
pub extern "C" fn shackletongue_put_record(
    file: &mut [u8],
    place: &mut [u64],
    floats: &[f32],
) -> u32
    ensures { slices_left result place.new file.new ≡ put_of file.old place.old floats.now }
{
    ffi_panel::shackletongue_put_record(file, place, floats)
}

/// The index of the last button that contains the point, which lies on top, goes to place[0]. 101 where the touch goes
/// nowhere; with a 7, place[0] is the offset of the first broken record.
#[unsafe(no_mangle)]
pub extern "C" fn shackletongue_touch(file: &[u8], x: f32, y: f32, place: &mut [u64]) -> u32
    ensures { place_left result place.new ≡ place_of_touch file.now (point x y) place.old }
{
    ffi_panel::shackletongue_touch(file, x, y, place)
}

/// `shackletongue_touch` for every touch of the file, in file order, each shape made once: the indices
/// go to the front of the 5,461 results, 0xffffffff for nowhere, and how many there are to place[0]. With
/// a 7, place[0] is the offset of the first broken record.
#[unsafe(no_mangle)]
pub extern "C" fn shackletongue_touch_all(
    file: &[u8],
    results: &mut [u32],
    place: &mut [u64],
) -> u32
    ensures { slices_left result place.new results.new
        ≡ places_of_touches file.now results.old place.old }
{
    ffi_panel::shackletongue_touch_all(file, results, place)
}
