//! The texts of the crate ffi_refusals.

ghost use Rattle.std.specs.Prelude.{◌≡◌};
ghost use Rattle.ffi_refusals.specs.Texts.{text_left, told_of};

/// The text of a number that functions return, and zeros behind it to the end of the 64 bytes. 101 where there is no
/// text for the number.
#[unsafe(no_mangle)]
pub extern "C" fn shackletongue_refusal_text(number: u32, text: &mut [u8]) -> u32
    ensures { text_left result text.new ≡ told_of number text.old }
{
    ffi_refusals::shackletongue_refusal_text(number, text)
}
