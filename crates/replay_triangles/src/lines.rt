//! The lines that are written, as docs/REPLAY.md has them.
use replies::Reply;
use std::io;
use stream::Builder;

/// A refusal's number.
pub fn write_number(rt: &impl Print, number: u8) -> io::Result<()> {
    rt.println(Reply::Refused(u64::from(number)))
}

/// A record's counts.
pub fn write_counts(rt: &impl Print, b: Builder) -> io::Result<()> {
    rt.println(Reply::Done(b))
}
