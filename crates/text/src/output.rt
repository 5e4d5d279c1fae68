//! Texts and numbers written into a lent buffer. A writer takes the index to write at and gives the
//! index past its text; where there is no room for all of it, nothing is written and the index is the
//! same. It stays an index and no Option: who writes one text behind another goes on at it, so that
//! reports, replies and copies would each turn a None back into the index that they had.
ghost use Rattle.std.specs.Prelude.{◌≡◌, ◌+◌, ◌≤◌, length};
ghost use Rattle.std.specs.Fmt.{WritesOnOk};
ghost use Rattle.std.proofs.Math.Seq.{paste};
ghost use Rattle.text.specs.Written.{Wrote, decimal_text};

use std::{fmt, str};

fn copy(out: &mut [u8], at: usize, text: &[u8])
    requires { at + length text.now ≤ length out.old }
    ensures { out.new ≡ paste out.old at text.now (length text.now) }
{
    out[at..at + text.len()].copy_from_slice(text);
}

/// A text, written from the index on.
pub fn put(out: &mut [u8], at: usize, text: &[u8]) -> usize
    ensures { Wrote out.old at text.now result out.new }
{
    if text.len() > out.len() {
        return at;
    }
    if at > out.len() - text.len() {
        return at;
    }
    copy(out, at, text);
    at + text.len()
}

/// A number's decimal digits, written from the index on.
pub fn put_decimal(out: &mut [u8], at: usize, n: u64) -> usize
    ensures { Wrote out.old at (decimal_text n) result out.new }
{
    let mut digits = [0u8; 20];
    let k = io::decimal(n, &mut digits);
    put(out, at, &digits[..k])
}

/// What a writer put into a buffer, to a formatter.
pub fn write_bytes<W: fmt::Write>(f: &mut fmt::Formatter<W>, bytes: &[u8]) -> fmt::Result
    ensures { WritesOnOk W.Write.write_str_gives f.old result bytes.now f.new }
{
    let Ok(text) = str::from_utf8(bytes) else {
        return Err(fmt::Error);
    };
    f.write_str(text)
}
