//! The replies to what a line asks.
use calls::BuildError;
use conic_writer::Written;
use geometry::Point;
use outline::BuildingCall;
use reader::{Cursor, ReadError, Rect, Segment};
use replies::Reply;
use shape::{RoundSuperellipse, ShapeError};
use std::io;
use stream::Builder;

/// A reply, on a line of its own.
pub fn write(rt: &impl Print, reply: Reply) -> io::Result<()> {
    rt.println(reply)
}

/// The segment that was read, and the next cursor, or why there is none.
pub fn write_reading(rt: &impl Print, a: Result<(Segment, Cursor), ReadError>) -> io::Result<()> {
    write(
        rt,
        match a {
            Ok((s, next)) => Reply::Read(s, next),
            Err(e) => Reply::from(e),
        },
    )
}

/// A path's box, if it has one, or why it cannot be read.
pub fn write_box(rt: &impl Print, a: Result<Option<Rect>, ReadError>) -> io::Result<()> {
    write(
        rt,
        match a {
            Ok(Some(r)) => Reply::Box(r),
            Ok(None) => Reply::Empty,
            Err(e) => Reply::from(e),
        },
    )
}

fn write_refused(rt: &impl Print, number: u8) -> io::Result<()> {
    write(rt, Reply::Refused(u64::from(number)))
}

// Only a conic's reply has a joint word.
fn of_done(call: BuildingCall, b: Builder, word: u64) -> Reply {
    match call {
        BuildingCall::ConicTo(_, _, _) => Reply::Worded(b, word),
        _ => Reply::Done(b),
    }
}

/// The answer of a call, and the record that it gives back.
pub fn write_built(
    rt: &impl Print,
    call: BuildingCall,
    a: Result<Written, BuildError>,
) -> io::Result<Builder> {
    match a {
        Ok(w) => {
            write(rt, of_done(call, w.builder, w.word))?;
            Ok(w.builder)
        }
        Err(e) => {
            write_refused(rt, e.number())?;
            Ok(e.builder())
        }
    }
}

/// Why there is no shape.
pub fn write_no_shape(rt: &impl Print, error: ShapeError) -> io::Result<()> {
    write_refused(rt, error.number())
}

/// Whether the shape contains the point, or why there is no shape.
pub fn write_contains(
    rt: &impl Print,
    made: Result<RoundSuperellipse, ShapeError>,
    p: Point,
) -> io::Result<()> {
    match made {
        Ok(shape) if containment::contains(shape, p) => write(rt, Reply::Yes),
        Ok(_) => write(rt, Reply::No),
        Err(error) => write_no_shape(rt, error),
    }
}
