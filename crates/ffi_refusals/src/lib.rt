//! The texts of the numbers that the exported functions return, for programs in C and Rust.

#![tactic(auto)]

ghost use Rattle.std.specs.Prelude.{◌≡◌, ◌≤◌, length, IfSome};
ghost use Rattle.std.specs.Option.{option_map};
ghost use Rattle.ffi_refusals.specs.Texts.{text_of, padded, text_left, told_of};

use ffi_floats::{NONE, WRONG_LENGTH};
use stream::BAD_RECORD_TEXT;

// The room for a text: the longest, and a zero behind it.
const ROOM: usize = 64;

#[tactic(auto, unfolding(crate::specs::Texts::text_of, shape::specs::Refusal::number_of))]
fn text_of(number: u32) -> Option<&'static str>
    ensures value { option_map (λ s. s.now) result ≡ text_of number }
    ensures short { IfSome result (λ s. length s.now ≤ 64) }
{
    match number {
        1 => Some(BAD_RECORD_TEXT),
        2 => Some("a bound or a radius is not finite, or over 16384 in magnitude"),
        3 => Some("a radius is below zero"),
        4 => Some("max is below min on an axis"),
        5 => Some("no room in the buffers"),
        6 => Some("a verb cannot be read"),
        7 => Some("the panel file is broken"),
        WRONG_LENGTH => Some("a slice does not have the length that the header gives"),
        NONE => Some("there is none: no point, no button or no such number"),
        _ => None,
    }
}

// A text to the front of the bytes, and zeros behind it. Byte by byte: `copy_from_slice` would need a memmove from
// outside.
fn put_text(bytes: &mut [u8], text: &[u8])
    requires len { length bytes.old ≡ 64 }
    requires room { length text.now ≤ 64 }
    ensures { bytes.new ≡ padded text.now }
{
    for (i, b) in bytes.iter_mut().enumerate() {
        *b = if i < text.len() { text[i] } else { 0 };
    }
}

/// The text of a number that functions return, and zeros behind it to the end of the 64 bytes. 101 where there is no
/// text for the number.
pub fn shackletongue_refusal_text(number: u32, text: &mut [u8]) -> u32
    ensures { text_left result text.new ≡ told_of number text.old }
{
    if text.len() != ROOM {
        return WRONG_LENGTH;
    }
    let Some(words) = text_of(number) else {
        return NONE;
    };
    put_text(text, words.as_bytes());
    0
}
