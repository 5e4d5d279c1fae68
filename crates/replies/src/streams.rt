//! A stream written line by line.
ghost use Rattle.std.specs.Prelude.{◌≡◌};
ghost use Rattle.replies.specs.Replies.{refused_reply};

use crate::Reply;
use reader::{Cursor, ReadError, Segment};
use std::io;
use stream::Builder;

impl From<ReadError> for Reply {
    ghost from_gives = { λ e r. r ≡ refused_reply e };

    fn from(e: ReadError) -> Reply {
        match e {
            ReadError::BadRecord(_) => Reply::Refused(u64::from(e.number())),
            ReadError::Malformed(verb) => Reply::Malformed(verb as u64),
        }
    }
}

/// Writes the segments from cursor (0, 0), then the record of a list and `end`; a refusal ends it. No contract can
/// say what is printed. A good record holds no more verbs than are lent.
pub fn write_stream(
    rt: &impl Print,
    b: Builder,
    verbs: &[u8],
    floats: &[f32],
    is_list: bool,
) -> io::Result<()> {
    let mut c = Cursor { verb: 0, point: 0 };
    for _ in 0..=verbs.len() {
        match reader::read(b, verbs, floats, c) {
            Err(e) => return rt.println(Reply::from(e)),
            Ok((Segment::End, _)) => break,
            Ok((segment, next)) => {
                rt.println(Reply::Element(segment))?;
                c = next;
            }
        }
    }
    if is_list {
        rt.println(Reply::Record(b))?;
    }
    rt.println(Reply::End)
}
