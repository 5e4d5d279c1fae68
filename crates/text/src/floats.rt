//! A float as a word: `nan`, or all hexadecimal digits of its bits.
ghost use Rattle.std.specs.Prelude.{◌≡◌, ℕ, ◌^◌, ◌<◌, ◌≤◌, Option, Some, IfSome};
ghost use Rattle.std.specs.Float.{nan, binary32, binary64};
ghost use Rattle.std.specs.Float.Ieee.{of_bits};
ghost use Rattle.io.specs.Digits.{last_digits};
ghost use Rattle.text.specs.Numbers.{float_of};
ghost use Rattle.text.specs.Written.{Wrote, hexadecimal_text, bits_of, float_text};
ghost use Rattle.std.proofs.Common.{lit≤};

use crate::numbers::read_number;
use crate::output::{put, write_bytes};
use std::fmt;
use std::num::{f32_from_bits_with_nan, f64_from_bits_with_nan};

/// A float that a word spells.
pub trait FloatWord: Copy {
    /// How many digits its bits have.
    ghost DIGITS: { ℕ };

    ghost nan: { Self };

    ghost of_bits: { ℕ → Self };

    /// None of a NaN.
    ghost bits_of: { Self → Option ℕ };

    const DIGITS: usize;

    fn not_a_number() -> Self
        ensures { result ≡ nan };

    fn from_bits(bits: u64) -> Self
        ensures { bits < 16 ^ DIGITS → result ≡ of_bits bits };

    fn bits(self) -> Option<u64>
        ensures value { result ≡ bits_of self }
        ensures fits { IfSome result (λ n. n < 16 ^ DIGITS) };

    ghost fits_64: { (1 ≤ DIGITS) × (DIGITS ≤ 16) };
}

impl FloatWord for f32 {
    ghost DIGITS = { 8 };

    ghost nan = { nan };

    ghost of_bits = { of_bits binary32 };

    ghost bits_of = { bits_of binary32 };

    ghost fits_64 = { (lit≤ tt, lit≤ tt) };

    const DIGITS: usize = 8;

    fn not_a_number() -> f32 {
        f32::NAN
    }

    fn from_bits(bits: u64) -> f32 {
        f32_from_bits_with_nan((bits % 0x1_0000_0000) as u32)
    }

    #[tactic(auto, unfolding(crate::specs::Written::bits_of))]
    fn bits(self) -> Option<u64> {
        if self.is_nan() {
            return None;
        }
        Some(u64::from(self.to_bits()))
    }
}

impl FloatWord for f64 {
    ghost DIGITS = { 16 };

    ghost nan = { nan };

    ghost of_bits = { of_bits binary64 };

    ghost bits_of = { bits_of binary64 };

    ghost fits_64 = { (lit≤ tt, lit≤ tt) };

    const DIGITS: usize = 16;

    fn not_a_number() -> f64 {
        f64::NAN
    }

    fn from_bits(bits: u64) -> f64 {
        f64_from_bits_with_nan(bits)
    }

    #[tactic(auto, unfolding(crate::specs::Written::bits_of))]
    fn bits(self) -> Option<u64> {
        if self.is_nan() {
            return None;
        }
        Some(self.to_bits())
    }
}

/// The float that a word spells.
#[tactic(auto, unfolding(crate::specs::Numbers::float_of))]
pub fn read_float<F: FloatWord>(s: &[u8]) -> Option<F>
    ensures { result ≡ float_of F.DIGITS F.of_bits F.nan s.now }
{
    if s == b"nan".as_slice() {
        return Some(F::not_a_number());
    }
    if s.len() != F::DIGITS {
        return None;
    }
    let bits = read_number(s, 16)?;
    Some(F::from_bits(bits))
}

// The last digits of a number, so many, which are all of them, at the start of a lent buffer.
fn digits_in(buffer: &mut [u8; 16], n: u64, digits: usize) -> &[u8]
    requires all { n < 16 ^ digits }
    requires lower_bound { 1 ≤ digits }
    requires upper_bound { digits ≤ 16 }
    ensures { result.now ≡ last_digits 16 digits n }
{
    let len = io::hex(n, digits, buffer);
    &buffer[..len]
}

/// All 16 digits of a number, written as `put` writes.
#[tactic(auto, unfolding(crate::specs::Written::hexadecimal_text))]
pub fn put_hexadecimal(out: &mut [u8], at: usize, n: u64) -> usize
    ensures { Wrote out.old at (hexadecimal_text n) result out.new }
{
    put(out, at, digits_in(&mut [0u8; 16], n, 16))
}

/// A float as a word, written as `put` writes.
#[tactic(auto, unfolding(crate::specs::Written::float_text))]
pub fn put_float<F: FloatWord>(out: &mut [u8], at: usize, x: F) -> usize
    ensures { Wrote out.old at (float_text F.DIGITS F.bits_of x) result out.new }
{
    match x.bits() {
        Some(bits) => put(out, at, digits_in(&mut [0u8; 16], bits, F::DIGITS)),
        None => put(out, at, b"nan"),
    }
}

/// All 16 digits of a number.
#[derive(Clone, Copy)]
pub struct Hexadecimal(pub u64);

impl fmt::Display for Hexadecimal {
    ghost output = { λ x. Some (hexadecimal_text x.0) };

    fn fmt<W: fmt::Write>(&self, f: &mut fmt::Formatter<W>) -> fmt::Result {
        let mut buffer = [0u8; 16];
        let len = put_hexadecimal(&mut buffer, 0, self.0);
        write_bytes(f, &buffer[..len])
    }
}

/// A float that is written as a word.
#[derive(Clone, Copy)]
pub struct Spelled<F>(pub F);

impl<F: FloatWord> fmt::Display for Spelled<F> {
    ghost output = { λ x. Some (float_text F.DIGITS F.bits_of x.0) };

    fn fmt<W: fmt::Write>(&self, f: &mut fmt::Formatter<W>) -> fmt::Result {
        let mut buffer = [0u8; 16];
        let len = put_float(&mut buffer, 0, self.0);
        write_bytes(f, &buffer[..len])
    }
}
