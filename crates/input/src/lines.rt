//! An input line by line, through two buffers that the caller lends, since there is no heap: one for a piece of the
//! input, one for a line.

ghost use Rattle.std.specs.Prelude.{◌≡◌, true, false, ◌+◌, ◌<◌, ◌≤◌, List, ℕ, ◌++◌, length, Some, OnOk, IfOk, IfErr, IfSome, IsSome};
ghost use Rattle.std.specs.Io.KnownBytes.{Keeps, IsAtEnd};
ghost use Rattle.input.specs.Lines.{too_long_text, rest_of, IsWithin, bytes_left, line_len, first_line, Holds, IsPast};

use std::error::Error;
use std::io::{ErrorKind, Read};
use std::{fmt, io};
use text::Class;

/// A line that there is no room for.
#[derive(Clone, Copy, Debug, PartialEq, Eq)]
pub struct TooLong;

impl fmt::Display for TooLong {
    ghost output = { λ _. Some too_long_text };

    fn fmt<W: fmt::Write>(&self, f: &mut fmt::Formatter<W>) -> fmt::Result {
        f.write_str("the line is too long")
    }
}

impl Error for TooLong {}

// The part of the piece that is still to be taken, and whether the input has ended.
#[derive(Drop)]
struct Reader {
    at: usize,
    end: usize,
    ended: bool,
}

// A part of a line behind the bytes already held, and how many are held then.
fn hold(line: &mut [u8], held: Option<usize>, part: &[u8]) -> Option<usize>
    ensures { (text : List ℕ) → Holds held line.old text →
        Holds result line.new (text ++ part.now) }
{
    let at = held?;
    if at > line.len() || part.len() > line.len() - at {
        return None;
    }
    let next = at + part.len();
    line[at..next].copy_from_slice(part);
    Some(next)
}

impl Reader {
    // Nothing is taken yet.
    fn new() -> Reader
        ensures at { result.at ≡ 0 }
        ensures end { result.end ≡ 0 }
        ensures ended { result.ended ≡ false }
    {
        Reader {
            at: 0,
            end: 0,
            ended: false,
        }
    }

    // A new piece, once the last is taken: an empty one ends the input.
    fn refill<R: Read>(&mut self, input: &mut R, piece: &mut [u8]) -> io::Result<()>
        requires room { 0 < length piece.old }
        requires within { IsWithin self.old piece.old }
        requires ended { self.old.ended ≡ false }
        ensures within { IsWithin self.new piece.new }
        ensures kept { OnOk result (Keeps
            (bytes_left self.old piece.old (R.remaining input.old))
            (bytes_left self.new piece.new (R.remaining input.new))) }
        ensures end { OnOk result (self.new.ended ≡ true →
            IsAtEnd (bytes_left self.new piece.new (R.remaining input.new))) }
    {
        if self.at < self.end {
            return Ok(());
        }
        let n = input.read(piece)?;
        self.at = 0;
        self.end = n;
        self.ended = n == 0;
        Ok(())
    }

    // How many bytes of the piece belong to the line, and whether the line ends in it.
    fn part(&self, piece: &[u8]) -> (usize, bool)
        requires { IsWithin self.now piece.now }
        ensures count { result.0 ≡ line_len (rest_of self.now piece.now) }
        ensures most { self.now.at + result.0 ≤ self.now.end }
        ensures ends { result.1 ≡ true → self.now.at + result.0 < self.now.end }
        ensures goes_on { result.1 ≡ false → self.now.at + result.0 ≡ self.now.end }
    {
        let rest = &piece[self.at..self.end];
        let n = text::leading(rest, Class::Line);
        (n, n < rest.len())
    }

    // The next line at the start of the buffer: how many bytes are held, none where there is no room. A proved loop
    // has to end, and nothing says that the input does: no run uses up so many turns.
    fn take_line<R: Read>(
        &mut self,
        input: &mut R,
        piece: &mut [u8],
        line: &mut [u8],
    ) -> io::Result<Option<usize>>
        requires room { 0 < length piece.old }
        requires within { IsWithin self.old piece.old }
        requires ended { self.old.ended ≡ false }
        ensures bound { IfOk result (λ held. IfSome held (λ n. n ≤ length line.new)) }
        ensures within { IsWithin self.new piece.new }
        ensures held { IfOk result (λ held.
            IfSome (bytes_left self.old piece.old (R.remaining input.old)) (λ bytes.
            Holds held line.new (first_line bytes))) }
        ensures past { OnOk result (
            IfSome (bytes_left self.old piece.old (R.remaining input.old)) (λ bytes.
            IsPast bytes self.new.ended
            (bytes_left self.new piece.new (R.remaining input.new)))) }
    {
        let mut held = Some(0);
        for _ in 0..u64::MAX {
            self.refill(input, piece)?;
            if self.ended {
                return Ok(held);
            }
            let (n, ends) = self.part(piece);
            held = hold(line, held, &piece[self.at..self.at + n]);
            if ends {
                self.at += n + 1;
                return Ok(held);
            }
            self.at += n;
        }
        Err(io::Error::from(ErrorKind::FileTooLarge))
    }

    // The next line, none behind the last. The last line, with which the input ends, may be empty.
    fn next<'l, R: Read>(
        &mut self,
        input: &mut R,
        piece: &mut [u8],
        line: &'l mut [u8],
    ) -> io::Result<Option<Result<&'l [u8], TooLong>>>
        requires room { 0 < length piece.old }
        requires within { IsWithin self.old piece.old }
        ensures within { IsWithin self.new piece.new }
        ensures none { self.old.ended ≡ true → result ≡ Ok None }
        ensures some { self.old.ended ≡ false → IfOk result (λ taken. IsSome taken) }
        ensures line { self.old.ended ≡ false → IfOk result (λ taken. IfSome taken (λ taken.
            IfSome (bytes_left self.old piece.old (R.remaining input.old)) (λ bytes.
            IfOk taken (λ line. line.now ≡ first_line bytes)))) }
        ensures too_long { self.old.ended ≡ false → IfOk result (λ taken. IfSome taken (λ taken.
            IfSome (bytes_left self.old piece.old (R.remaining input.old)) (λ bytes.
            IfErr taken (λ _. length line.old < length (first_line bytes))))) }
        ensures past { self.old.ended ≡ false → OnOk result (
            IfSome (bytes_left self.old piece.old (R.remaining input.old)) (λ bytes.
            IsPast bytes self.new.ended
            (bytes_left self.new piece.new (R.remaining input.new)))) }
    {
        if self.ended {
            return Ok(None);
        }
        let held = self.take_line(input, piece, line)?;
        let Some(n) = held else {
            return Ok(Some(Err(TooLong)));
        };
        Ok(Some(Ok(&line[..n])))
    }
}

/// Every line to `visit`, until it answers false. With no room for a piece nothing is read, and the input has one line,
/// which is empty. A proved loop has to end, and nothing says that the input does: no run uses up so many turns.
pub fn for_each<R: Read, F: FnMut(Result<&[u8], TooLong>) -> io::Result<bool>>(
    input: &mut R,
    piece: &mut [u8],
    line: &mut [u8],
    mut visit: F,
) -> io::Result<()>
    requires visit { F.IsAlwaysCallable visit }
{
    if piece.is_empty() {
        visit(Ok(&[]))?;
        return Ok(());
    }
    let mut reader = Reader::new();
    for _ in 0..u64::MAX {
        let Some(taken) = reader.next(input, piece, line)? else {
            break;
        };
        if !visit(taken)? {
            break;
        }
    }
    Ok(())
}

/// Each line of an input to `answer`, and `bad` written for a line of more than 1,024 bytes.
pub fn answer_each<R: Read, F: Fn(&[u8]) -> io::Result<()>>(
    rt: &impl Print,
    input: &mut R,
    answer: F,
) -> io::Result<()>
    requires { F.IsAlwaysCallable answer }
{
    let mut piece = [0u8; 65536];
    let mut line = [0u8; 1024];
    for_each(input, &mut piece, &mut line, |taken| {
        match taken {
            Ok(line) => answer(line)?,
            Err(TooLong) => rt.println("bad")?,
        }
        Ok(true)
    })
}
