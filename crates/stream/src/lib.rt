//! A path as a stream over two lent buffers: a byte per verb, two floats per point. The record of what
//! is held goes by value.

#![tactic(auto)]

ghost use Rattle.std.specs.Prelude.{◌≡◌, ◌∷◌, [], ◌++◌, ◌+◌, ◌*◌, ◌^◌, ◌<◌, ◌≤◌, length, Some, decimal};
ghost use Rattle.stream.specs.Stream.{put, verb_in, verb_text, no_verb_text, byte_of, verb_of, size_of, floats_in, floats_of, point_in, point_count, CanSum, sum_of, fresh_builder, bad_record, has_room, advance_of, state, push, FitsOne};

use geometry::Point;
use std::error::Error;
use std::fmt;
use std::ops::Add;

/// How much of the buffers is held, the contour's start and the pen. Start and pen mean nothing while
/// no verb is held. What changes a record updates it, and names only the fields that change.
///
/// The counts stand apart: side by side they would be read as one, and a processor waits where two writes
/// are read at once.
#[derive(Clone, Copy, Debug)]
pub struct Builder {
    pub verbs: usize,
    pub start: Point,
    pub points: usize,
    pub pen: Point,
}

/// The number of the refusal of a record that does not suit the buffers.
pub const BAD_RECORD: u8 = 1;

/// Its text.
pub const BAD_RECORD_TEXT: &str = "the record does not suit the buffers";

/// The kinds of element. In the buffer of verbs each is a byte, 0 to 4 in this order, since C lends bytes.
#[derive(Clone, Copy, Debug, PartialEq, Eq)]
pub enum Verb {
    Move,
    Line,
    Quad,
    Cubic,
    Close,
}

impl fmt::Display for Verb {
    ghost output = { λ v. Some (verb_text v) };

    fn fmt<W: fmt::Write>(&self, f: &mut fmt::Formatter<W>) -> fmt::Result {
        f.write_str(match self {
            Verb::Move => "move",
            Verb::Line => "line",
            Verb::Quad => "quad",
            Verb::Cubic => "cubic",
            Verb::Close => "close",
        })
    }
}

/// A byte over 4, which is no verb.
#[derive(Clone, Copy, Debug, PartialEq, Eq)]
pub struct UnknownVerb {
    pub byte: u8,
}

impl fmt::Display for UnknownVerb {
    ghost output = { λ u. Some (no_verb_text ++ decimal u.byte) };

    fn fmt<W: fmt::Write>(&self, f: &mut fmt::Formatter<W>) -> fmt::Result {
        write!(f, "no verb has the byte {}", self.byte)
    }
}

impl Error for UnknownVerb {}

impl TryFrom<u8> for Verb {
    type Error = UnknownVerb;

    ghost try_from_gives = { λ byte r. r ≡ verb_in byte };

    fn try_from(byte: u8) -> Result<Verb, UnknownVerb> {
        match byte {
            0 => Ok(Verb::Move),
            1 => Ok(Verb::Line),
            2 => Ok(Verb::Quad),
            3 => Ok(Verb::Cubic),
            4 => Ok(Verb::Close),
            _ => Err(UnknownVerb { byte }),
        }
    }
}

impl Verb {
    // Its byte in the buffer.
    fn byte(self) -> u8
        ensures { result ≡ byte_of self }
    {
        match self {
            Verb::Move => 0,
            Verb::Line => 1,
            Verb::Quad => 2,
            Verb::Cubic => 3,
            Verb::Close => 4,
        }
    }

    /// How many points it consumes.
    #[tactic(auto, unfolding(crate::specs::Stream::point_count))]
    pub fn point_count(self) -> usize
        ensures { result ≡ point_count (byte_of self) }
    {
        match self {
            Verb::Move => 1,
            Verb::Line => 1,
            Verb::Quad => 2,
            Verb::Cubic => 3,
            Verb::Close => 0,
        }
    }
}

/// What a path is made of.
#[derive(Clone, Copy)]
pub enum Element {
    Move(Point),
    Line(Point),
    Quad(Point, Point),
    Cubic(Point, Point, Point),
    Close,
}

impl Element {
    /// Its kind.
    pub fn verb(self) -> Verb
        ensures { byte_of result ≡ verb_of self }
    {
        match self {
            Element::Move(_) => Verb::Move,
            Element::Line(_) => Verb::Line,
            Element::Quad(_, _) => Verb::Quad,
            Element::Cubic(_, _, _) => Verb::Cubic,
            Element::Close => Verb::Close,
        }
    }
}

/// How many verbs and points something adds.
#[derive(Drop)]
pub struct Need {
    pub verbs: usize,
    pub points: usize,
}

impl Add for Need {
    type Output = Need;

    ghost can_add = { CanSum };

    ghost add_gives = { λ n m r. r ≡ sum_of n m };

    fn add(self, m: Need) -> Need {
        Need {
            verbs: self.verbs + m.verbs,
            points: self.points + m.points,
        }
    }
}

/// The record of buffers in which nothing is held.
pub fn new() -> Builder
    ensures { result ≡ fresh_builder }
{
    Builder {
        verbs: 0,
        points: 0,
        start: Point { x: 0.0, y: 0.0 },
        pen: Point { x: 0.0, y: 0.0 },
    }
}

/// Refusal 1: the record does not suit buffers of these lengths. A division, since twice the point count
/// may overflow. The lengths go one by one: each is the `len()` of a lent slice, and a struct of both would
/// be made for one use.
#[tactic(auto, unfolding(crate::specs::Stream::bad_record))]
pub fn bad_record(b: Builder, verbs: usize, floats: usize) -> bool
    ensures { result ≡ bad_record b verbs floats }
{
    if verbs < b.verbs {
        return true;
    }
    if floats / 2 < b.points {
        return true;
    }
    if b.verbs == 0 {
        return 0 < b.points;
    }
    false
}

/// Whether so much more has room in buffers of these lengths.
pub fn has_room(b: Builder, verbs: usize, floats: usize, need: Need) -> bool
    ensures { result ≡ has_room b verbs floats need }
{
    let pairs = floats / 2;
    if verbs < b.verbs {
        return false;
    }
    if pairs < b.points {
        return false;
    }
    if need.verbs <= verbs - b.verbs {
        return need.points <= pairs - b.points;
    }
    false
}

// The record after one element more.
#[tactic(auto, unfolding(crate::specs::Stream::advance_of))]
fn advance(b: Builder, e: Element) -> Builder
    requires verbs { b.verbs + 1 < 2 ^ 64 }
    requires points { b.points + 3 < 2 ^ 64 }
    ensures { result ≡ advance_of b e }
{
    let verbs = b.verbs + 1;
    match e {
        Element::Move(p) => Builder {
            verbs,
            points: b.points + 1,
            start: p,
            pen: p,
            ..b
        },
        Element::Line(p) => Builder {
            verbs,
            points: b.points + 1,
            pen: p,
            ..b
        },
        Element::Quad(_, p) => Builder {
            verbs,
            points: b.points + 2,
            pen: p,
            ..b
        },
        Element::Cubic(_, _, p) => Builder {
            verbs,
            points: b.points + 3,
            pen: p,
            ..b
        },
        Element::Close => Builder {
            verbs,
            pen: b.start,
            ..b
        },
    }
}

/// A point to the floats from `at` on, and the point that stands there.
pub fn put_point(floats: &mut [f32], at: usize, p: Point)
    requires { at + 2 ≤ length floats.old }
    ensures { floats.new ≡ put floats.old at (floats_in (p ∷ [])) }
{
    floats[at] = p.x;
    floats[at + 1] = p.y;
}

/// The point in the floats from `at` on.
pub fn point_at(floats: &[f32], at: usize) -> Point
    requires { at + 2 ≤ length floats.now }
    ensures { result ≡ point_in floats.now at }
{
    Point {
        x: floats[at],
        y: floats[at + 1],
    }
}

// The points of an element from point `at` on.
fn put_points(points: &mut [f32], at: usize, e: Element)
    requires { 2 * (at + size_of e) ≤ length points.old }
    ensures { points.new ≡ put points.old (2 * at) (floats_of e) }
{
    let i = 2 * at;
    match e {
        Element::Move(p) => put_point(points, i, p),
        Element::Line(p) => put_point(points, i, p),
        Element::Quad(c, p) => {
            put_point(points, i, c);
            put_point(points, i + 2, p);
        }
        Element::Cubic(c0, c1, p) => {
            put_point(points, i, c0);
            put_point(points, i + 2, c1);
            put_point(points, i + 4, p);
        }
        Element::Close => {}
    }
}

/// One element behind the held ones, for which there is room.
pub fn push(b: Builder, verbs: &mut [u8], points: &mut [f32], e: Element) -> Builder
    requires { FitsOne b verbs.old points.old e }
    ensures { state result verbs.new points.new ≡ push (state b verbs.old points.old) e }
{
    verbs[b.verbs] = e.verb().byte();
    put_points(points, b.points, e);
    advance(b, e)
}
