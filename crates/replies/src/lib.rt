//! The lines that replay_paths and replay_triangles write (docs/REPLAY.md), but for the ends of the lines.

#![tactic(auto)]

mod placing;
mod streams;

ghost use Rattle.std.specs.Prelude.{Some};
ghost use Rattle.replies.specs.Replies.{reply_text};

pub use placing::put;
use reader::{Cursor, Rect, Segment};
use std::fmt;
use stream::Builder;
pub use streams::write_stream;

/// What one line says.
#[derive(Drop)]
pub enum Reply {
    /// A segment of a stream.
    Element(Segment),
    /// A segment that was read at a cursor, and the next cursor.
    Read(Segment, Cursor),
    /// The record that a list ends with.
    Record(Builder),
    /// A stream ends.
    End,
    /// A path without a box.
    Empty,
    /// A path's box.
    Box(Rect),
    /// The counts behind a building call.
    Done(Builder),
    /// The counts behind a conic, and its joint word.
    Worded(Builder, u64),
    /// A point lies inside.
    Yes,
    /// A point lies outside.
    No,
    /// A refusal's number. It stays a number, as the line says it: the errors of calls, reader and shape each give
    /// theirs.
    Refused(u64),
    /// The index of the verb of a refusal 6.
    Malformed(u64),
    /// The number of a bad line.
    BadLine(u64),
}

impl fmt::Display for Reply {
    ghost output = { λ r. Some (reply_text r) };

    fn fmt<W: fmt::Write>(&self, f: &mut fmt::Formatter<W>) -> fmt::Result {
        // A line has at most 107 bytes.
        let mut line = [0u8; 128];
        let len = put(&mut line, self);
        text::write_bytes(f, &line[..len - 1])
    }
}
