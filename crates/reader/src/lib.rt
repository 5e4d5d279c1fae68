//! Reading a stream: one segment at a cursor, the part of the lent floats that it consumes, and the
//! least box round all points.

#![tactic(auto)]

ghost use Rattle.std.specs.Prelude.{◌≡◌, ◌+◌, ◌-◌, ◌*◌, ◌≤◌, length, Some};
ghost use Rattle.stream.specs.Stream.{byte_of, point_count, state};
ghost use Rattle.reader.specs.Reading.{element_at, segment_of, number_of, refusal_text, read_at, reading_of, part_at, floats_at};
ghost use Rattle.reader.specs.Bounds.{widen_of, include_of, include_segment, bounds_of, bounds_reading};

use geometry::Point;
use std::error::Error;
use std::fmt;
use stream::{Builder, Verb};

/// A place in a stream.
#[derive(Clone, Copy)]
pub struct Cursor {
    pub verb: usize,
    pub point: usize,
}

/// What is read at a cursor: an element, or the end.
#[derive(Clone, Copy)]
pub enum Segment {
    Move(Point),
    Line(Point),
    Quad(Point, Point),
    Cubic(Point, Point, Point),
    Close,
    End,
}

/// The refusal of a reading.
#[derive(Clone, Copy, Debug)]
pub enum ReadError {
    /// 1, with the same record: it does not suit the buffers.
    BadRecord(Builder),
    /// 6, with the verb's index: no such verb, or too few points for it.
    Malformed(usize),
}

impl ReadError {
    /// The refusal's number.
    pub fn number(self) -> u8
        ensures { result ≡ number_of self }
    {
        match self {
            ReadError::BadRecord(_) => stream::BAD_RECORD,
            ReadError::Malformed(_) => 6,
        }
    }
}

impl fmt::Display for ReadError {
    ghost output = { λ e. Some (refusal_text e) };

    fn fmt<W: fmt::Write>(&self, f: &mut fmt::Formatter<W>) -> fmt::Result {
        match self {
            ReadError::BadRecord(_) => f.write_str(stream::BAD_RECORD_TEXT),
            ReadError::Malformed(verb) => write!(f, "verb {verb} cannot be read"),
        }
    }
}

impl Error for ReadError {}

// Compiled in place: who wants a segment's part and kind alone does not pay for its points.
#[inline(always)]
#[tactic(auto, unfolding(stream::specs::Stream::point_count, crate::specs::Reading::element_at))]
fn segment_at(verb: Verb, points: &[f32], at: usize) -> Segment
    requires { 2 * point_count (byte_of verb) ≤ length points.now - 2 * at }
    ensures { result ≡ segment_of (element_at (byte_of verb) points.now at) }
{
    match verb {
        Verb::Move => Segment::Move(stream::point_at(points, 2 * at)),
        Verb::Line => Segment::Line(stream::point_at(points, 2 * at)),
        Verb::Quad => Segment::Quad(
            stream::point_at(points, 2 * at),
            stream::point_at(points, 2 * (at + 1)),
        ),
        Verb::Cubic => Segment::Cubic(
            stream::point_at(points, 2 * at),
            stream::point_at(points, 2 * (at + 1)),
            stream::point_at(points, 2 * (at + 2)),
        ),
        Verb::Close => Segment::Close,
    }
}

/// The segment at c and the next cursor. Compiled in place where it is called: as a call of its own it costs half
/// as much again.
#[inline(always)]
pub fn read(
    b: Builder,
    verbs: &[u8],
    points: &[f32],
    c: Cursor,
) -> Result<(Segment, Cursor), ReadError>
    ensures { reading_of result ≡ read_at (state b verbs.now points.now) c }
{
    if stream::bad_record(b, verbs.len(), points.len()) {
        return Err(ReadError::BadRecord(b));
    }
    let at = c.verb;
    let p = c.point;
    if b.verbs <= at {
        return Ok((Segment::End, c));
    }
    let Ok(verb) = Verb::try_from(verbs[at]) else {
        return Err(ReadError::Malformed(at));
    };
    let k = verb.point_count();
    if b.points.saturating_sub(p) < k {
        return Err(ReadError::Malformed(at));
    }
    let next = Cursor {
        verb: at + 1,
        point: p + k,
    };
    Ok((segment_at(verb, points, p), next))
}

/// `read`, and with it the part of the lent floats that the segment consumes: no copy. It is empty for a close, the end
/// or a refusal.
#[inline(always)]
pub fn read_both<'a>(
    b: Builder,
    verbs: &[u8],
    points: &'a [f32],
    c: Cursor,
) -> (Result<(Segment, Cursor), ReadError>, &'a [f32])
    ensures reading { reading_of result.0 ≡ read_at (state b verbs.now points.now) c }
    ensures part { result.1.now ≡ part_at (state b verbs.now points.now) c }
    ensures floats { result.1.now ≡ floats_at (state b verbs.now points.now) c }
{
    let reading = read(b, verbs, points, c);
    let Ok((_, next)) = reading else {
        return (reading, &points[..0]);
    };
    let p = c.point;
    let q = next.point;
    if p < q {
        return (reading, &points[2 * p..2 * q]);
    }
    (reading, &points[..0])
}

/// The part of the lent floats that the segment at c consumes, as `read_both` has it.
pub fn read_points<'a>(b: Builder, verbs: &[u8], points: &'a [f32], c: Cursor) -> &'a [f32]
    ensures part { result.now ≡ part_at (state b verbs.now points.now) c }
    ensures floats { result.now ≡ floats_at (state b verbs.now points.now) c }
{
    read_both(b, verbs, points, c).1
}

/// The least box round points. Not the bounds of a shape, though it has the same fields: those are what a shape is
/// asked for, and a stream knows no shape.
#[derive(Drop)]
pub struct Rect {
    pub min: Point,
    pub max: Point,
}

// The box of the points that were seen, if there were any, with one more.
#[tactic(auto, unfolding(crate::specs::Bounds::widen_of))]
fn widen(seen: Option<Rect>, p: Point) -> Option<Rect>
    ensures { result ≡ widen_of seen p }
{
    match seen {
        None => Some(Rect { min: p, max: p }),
        Some(r) => {
            let min = r.min;
            let max = r.max;
            Some(Rect {
                min: Point {
                    x: ieee::min(min.x, p.x),
                    y: ieee::min(min.y, p.y),
                },
                max: Point {
                    x: ieee::max(max.x, p.x),
                    y: ieee::max(max.y, p.y),
                },
            })
        }
    }
}

// A point that is not finite is passed over.
#[tactic(auto, unfolding(crate::specs::Bounds::include_of))]
fn include(seen: Option<Rect>, p: Point) -> Option<Rect>
    ensures { result ≡ include_of seen p }
{
    if p.is_finite() {
        return widen(seen, p);
    }
    seen
}

#[tactic(auto, unfolding(crate::specs::Bounds::include_all, crate::specs::Bounds::include_segment))]
fn include_segment(seen: Option<Rect>, s: Segment) -> Option<Rect>
    ensures { result ≡ include_segment seen s }
{
    match s {
        Segment::Move(p) => include(seen, p),
        Segment::Line(p) => include(seen, p),
        Segment::Quad(p, q) => include(include(seen, p), q),
        Segment::Cubic(p, q, r) => include(include(include(seen, p), q), r),
        Segment::Close => seen,
        Segment::End => seen,
    }
}

/// The least box round the points of all segments, controls included, if there are any that are finite.
pub fn bounds(b: Builder, verbs: &[u8], points: &[f32]) -> Result<Option<Rect>, ReadError>
    ensures { bounds_reading result ≡ bounds_of (state b verbs.now points.now) }
{
    if stream::bad_record(b, verbs.len(), points.len()) {
        return Err(ReadError::BadRecord(b));
    }
    let mut seen = None;
    let mut c = Cursor { verb: 0, point: 0 };
    // The cursor is no index: it goes on by a verb and by that verb's points. The record suits the buffers, so what
    // is refused here is refusal 6.
    while c.verb < b.verbs {
        let Ok((segment, next)) = read(b, verbs, points, c) else {
            return Err(ReadError::Malformed(c.verb));
        };
        seen = include_segment(seen, segment);
        c = next;
    }
    Ok(seen)
}
