//! The six building calls: as values, what each needs, and what each does. A call takes the record by value and the
//! two buffers lent, counts its need before anything is written, and writes all or nothing. Record and buffers go side
//! by side, and not as one struct: what slices that were lent to a struct's fields hold after its last use is not known
//! to the check (tried).

#![tactic(auto)]

ghost use Rattle.std.specs.Prelude.{◌≡◌, false, [], ◌∷◌, ◌++◌, ◌+◌, ◌-◌, ◌*◌, ◌≤◌, length, Some};
ghost use Rattle.conic.specs.Conic.{flat_of};
ghost use Rattle.conic.specs.Vectors.{point_in, conic_in};
ghost use Rattle.stream.specs.Stream.{state, is_empty, need_of, push_all};
ghost use Rattle.conic_writer.specs.Entries.{plain, elements_of, lowered_of};
ghost use Rattle.calls.specs.Calls.{conic_from, opened_need, opening, closing, entries_of, number_of, record_of, refusal_text, with_word, admit_of, attempt, outcome_of, conic_outcome_of, step};

use conic::{Conic, Lowered};
use conic_writer::Written;
use geometry::Point;
use std::error::Error;
use std::fmt;
use std::simd::prelude::*;
use stream::{Builder, Element, Need};

// The most quads that a conic is drawn as.
const MOST_QUADS: u32 = 64;

/// A building call with its arguments.
#[derive(Drop)]
pub enum Call {
    MoveTo(Point),
    LineTo(Point),
    QuadTo(Point, Point),
    ConicTo(Point, Point, f32),
    CubicTo(Point, Point, Point),
    Close,
}

/// The refusal of a call, with the same record.
#[derive(Clone, Copy, Debug)]
pub enum BuildError {
    /// 1: the record does not suit the buffers.
    BadRecord(Builder),
    /// 5: the call needs more verbs or points than are free.
    NoRoom(Builder),
}

impl BuildError {
    /// The refusal's number.
    pub fn number(self) -> u8
        ensures { result ≡ number_of self }
    {
        match self {
            BuildError::BadRecord(_) => stream::BAD_RECORD,
            BuildError::NoRoom(_) => 5,
        }
    }

    /// The record, as the call was given it.
    pub fn builder(self) -> Builder
        ensures { result ≡ record_of self }
    {
        match self {
            BuildError::BadRecord(b) => b,
            BuildError::NoRoom(b) => b,
        }
    }
}

impl fmt::Display for BuildError {
    ghost output = { λ e. Some (refusal_text e) };

    fn fmt<W: fmt::Write>(&self, f: &mut fmt::Formatter<W>) -> fmt::Result {
        f.write_str(match self {
            BuildError::BadRecord(_) => stream::BAD_RECORD_TEXT,
            BuildError::NoRoom(_) => "no room in the buffers",
        })
    }
}

impl Error for BuildError {}

/// The same answer with a joint word.
pub fn with_word(a: Result<Builder, BuildError>, word: u64) -> Result<Written, BuildError>
    ensures { result ≡ with_word a word }
{
    a.map(|builder| Written { builder, word })
}

/// A conic that starts at the pen: on an empty builder at (0, 0), whatever the record's pen.
pub fn conic_from(b: Builder, ctrl: Point, to: Point, weight: f32) -> Conic
    ensures { result ≡ conic_from (is_empty b) b.pen ctrl to weight }
{
    let from = if b.verbs == 0 {
        Point { x: 0.0, y: 0.0 }
    } else {
        b.pen
    };
    Conic {
        from,
        ctrl,
        to,
        weight,
    }
}

/// So many verbs and points, with those of the opening move where the builder is empty.
pub fn opened_need(b: Builder, verbs: u32, points: u32) -> Need
    ensures { result ≡ opened_need (is_empty b) verbs points }
{
    if b.verbs == 0 {
        return Need {
            verbs: verbs as usize + 1,
            points: points as usize + 1,
        };
    }
    Need {
        verbs: verbs as usize,
        points: points as usize,
    }
}

// The same of a lowered conic.
fn lowered_need(b: Builder, l: Lowered) -> Need
    ensures { result ≡ need_of (elements_of (opening (is_empty b) ++ lowered_of l)) }
{
    match l {
        Lowered::Line(_) => opened_need(b, 1, 1),
        Lowered::Curve(c) => {
            let k = conic::count(c) as u32;
            opened_need(b, k, 2 * k)
        }
    }
}

/// A close on an empty builder adds nothing.
#[tactic(auto, unfolding(conic_writer::specs::Entries::elements_of, stream::specs::Stream::sizes_of))]
pub fn close_need(b: Builder) -> Need
    ensures { result ≡ need_of (elements_of (closing (is_empty b))) }
{
    if b.verbs == 0 {
        return Need {
            verbs: 0,
            points: 0,
        };
    }
    Need {
        verbs: 1,
        points: 0,
    }
}

/// What a call adds to the record's counts, if it is accepted.
pub fn need(b: Builder, call: Call) -> Need
    ensures { result ≡ need_of (elements_of (entries_of (is_empty b) b.pen call)) }
{
    match call {
        Call::MoveTo(_) => Need {
            verbs: 1,
            points: 1,
        },
        Call::LineTo(_) => opened_need(b, 1, 1),
        Call::QuadTo(_, _) => opened_need(b, 1, 2),
        Call::ConicTo(ctrl, to, weight) => {
            lowered_need(b, conic::lower(conic_from(b, ctrl, to, weight)))
        }
        Call::CubicTo(_, _, _) => opened_need(b, 1, 3),
        Call::Close => close_need(b),
    }
}

/// Whether a need is met by buffers of these lengths.
#[tactic(auto, unfolding(crate::specs::Calls::admit_of))]
pub fn admit(b: Builder, verbs: usize, floats: usize, need: Need) -> Result<(), BuildError>
    ensures { result ≡ admit_of b verbs floats need }
{
    if stream::bad_record(b, verbs, floats) {
        return Err(BuildError::BadRecord(b));
    }
    if stream::has_room(b, verbs, floats, need) {
        return Ok(());
    }
    Err(BuildError::NoRoom(b))
}

/// Whether the need of a lowered conic is. Buffers with room for the largest need, 64 quads, have room for any:
/// only in fuller ones are the quads counted.
pub fn admit_lowered(b: Builder, verbs: usize, floats: usize, l: Lowered) -> Result<(), BuildError>
    ensures { result
        ≡ admit_of b verbs floats (need_of (elements_of (opening (is_empty b) ++ lowered_of l))) }
{
    let largest = opened_need(b, MOST_QUADS, 2 * MOST_QUADS);
    admit(b, verbs, floats, largest).or_else(|_| admit(b, verbs, floats, lowered_need(b, l)))
}

// The opening move of a builder that is empty.
#[tactic(auto, unfolding(conic_writer::specs::Entries::elements_of, stream::specs::Stream::push_all))]
fn ensure_started(b: Builder, verbs: &mut [u8], points: &mut [f32]) -> Builder
    requires verb_room { b.verbs + (1 - b.verbs) ≤ length verbs.old }
    requires point_room { 2 * (b.points + (1 - b.verbs)) ≤ length points.old }
    ensures { state result verbs.new points.new
        ≡ push_all (state b verbs.old points.old) (elements_of (opening (is_empty b))) }
{
    if b.verbs == 0 {
        return stream::push(b, verbs, points, Element::Move(Point { x: 0.0, y: 0.0 }));
    }
    b
}

// One element, behind the opening move of a builder that is empty. Nearly every builder is not, which is asked
// first: then nothing is asked or written for the opening move, and less for the rest.
#[inline(always)]
fn add(b: Builder, verbs: &mut [u8], points: &mut [f32], e: Element) -> Result<Builder, BuildError>
    ensures { outcome_of result verbs.new points.new
        ≡ attempt (state b verbs.old points.old) (opening (is_empty b) ++ plain e ∷ []) }
{
    let size = e.verb().point_count() as u32;
    if b.verbs == 0 {
        admit(b, verbs.len(), points.len(), opened_need(b, 1, size))?;
        let o = ensure_started(b, verbs, points);
        return Ok(stream::push(o, verbs, points, e));
    }
    let need = Need {
        verbs: 1,
        points: size as usize,
    };
    admit(b, verbs.len(), points.len(), need)?;
    Ok(stream::push(b, verbs, points, e))
}

/// Begins a contour at p.
pub fn move_to(
    b: Builder,
    verbs: &mut [u8],
    points: &mut [f32],
    p: Point,
) -> Result<Builder, BuildError>
    ensures { outcome_of result verbs.new points.new
        ≡ step (state b verbs.old points.old) (Call.MoveTo p) }
{
    let need = Need {
        verbs: 1,
        points: 1,
    };
    admit(b, verbs.len(), points.len(), need)?;
    Ok(stream::push(b, verbs, points, Element::Move(p)))
}

/// A line to p. On an empty builder this and every other call but a move and a close begins with a move to
/// (0, 0).
#[tactic(auto, unfolding(crate::specs::Calls::entries_of, crate::specs::Calls::step))]
pub fn line_to(
    b: Builder,
    verbs: &mut [u8],
    points: &mut [f32],
    p: Point,
) -> Result<Builder, BuildError>
    ensures { outcome_of result verbs.new points.new
        ≡ step (state b verbs.old points.old) (Call.LineTo p) }
{
    add(b, verbs, points, Element::Line(p))
}

/// A quadratic with its control, to p.
#[tactic(auto, unfolding(crate::specs::Calls::entries_of, crate::specs::Calls::step))]
pub fn quad_to(
    b: Builder,
    verbs: &mut [u8],
    points: &mut [f32],
    ctrl: Point,
    p: Point,
) -> Result<Builder, BuildError>
    ensures { outcome_of result verbs.new points.new
        ≡ step (state b verbs.old points.old) (Call.QuadTo ctrl p) }
{
    add(b, verbs, points, Element::Quad(ctrl, p))
}

/// A cubic with its two controls, to p.
#[tactic(auto, unfolding(crate::specs::Calls::entries_of, crate::specs::Calls::step))]
pub fn cubic_to(
    b: Builder,
    verbs: &mut [u8],
    points: &mut [f32],
    c0: Point,
    c1: Point,
    p: Point,
) -> Result<Builder, BuildError>
    ensures { outcome_of result verbs.new points.new
        ≡ step (state b verbs.old points.old) (Call.CubicTo c0 c1 p) }
{
    add(b, verbs, points, Element::Cubic(c0, c1, p))
}

// A conic's only quad, in the same way. The conic comes as vectors.
#[inline(always)]
fn single_to(
    b: Builder,
    verbs: &mut [u8],
    points: &mut [f32],
    ends: f32x4,
    ctrl: f32x4,
) -> Result<Builder, BuildError>
    ensures { outcome_of result verbs.new points.new
        ≡ attempt (state b verbs.old points.old)
        (opening (is_empty b) ++ plain (Element.Quad (point_in ctrl 0) (point_in ends 2)) ∷ []) }
{
    if b.verbs == 0 {
        admit(b, verbs.len(), points.len(), opened_need(b, 1, 2))?;
        let o = ensure_started(b, verbs, points);
        return Ok(conic_writer::push_single(o, verbs, points, ends, ctrl));
    }
    let need = Need {
        verbs: 1,
        points: 2,
    };
    admit(b, verbs.len(), points.len(), need)?;
    Ok(conic_writer::push_single(b, verbs, points, ends, ctrl))
}

// The quads of a conic that is more than one, behind the opening move of a builder that is empty. Compiled apart,
// since it is long and what calls it need not be. The conic comes as vectors and a number.
#[inline(never)]
fn split_to(
    b: Builder,
    verbs: &mut [u8],
    points: &mut [f32],
    ends: f32x4,
    ctrl: f32x4,
    weight: f32,
) -> Result<Written, BuildError>
    requires { flat_of (conic_in ends ctrl weight) ≡ false }
    ensures { conic_outcome_of result verbs.new points.new
        ≡ attempt (state b verbs.old points.old)
        (opening (is_empty b) ++ lowered_of (Lowered.Curve (conic_in ends ctrl weight))) }
{
    let l = Lowered::Curve(conic::of_vectors(ends, ctrl, weight));
    admit_lowered(b, verbs.len(), points.len(), l)?;
    let o = ensure_started(b, verbs, points);
    Ok(conic_writer::push_split(o, verbs, points, ends, ctrl, weight))
}

/// A conic with its control and its weight, to a point: one line, or 1 to 64 quads with their joint word. A line
/// and a single quad, which starts at bit 0, are elements by themselves.
pub fn conic_to(
    b: Builder,
    verbs: &mut [u8],
    points: &mut [f32],
    ctrl: Point,
    to: Point,
    weight: f32,
) -> Result<Written, BuildError>
    ensures { conic_outcome_of result verbs.new points.new
        ≡ step (state b verbs.old points.old) (Call.ConicTo ctrl to weight) }
{
    match conic::lower(conic_from(b, ctrl, to, weight)) {
        Lowered::Line(p) => with_word(add(b, verbs, points, Element::Line(p)), 0),
        Lowered::Curve(c) => {
            let ends = conic::ends(c);
            let ctrl = conic::ctrl(c);
            if conic::is_flat(c) {
                return with_word(single_to(b, verbs, points, ends, ctrl), 1);
            }
            split_to(b, verbs, points, ends, ctrl, c.weight)
        }
    }
}

/// Closes the contour: the pen goes back to its start. On an empty builder a close is accepted, and changes
/// nothing.
pub fn close(b: Builder, verbs: &mut [u8], points: &mut [f32]) -> Result<Builder, BuildError>
    ensures { outcome_of result verbs.new points.new
        ≡ step (state b verbs.old points.old) Call.Close }
{
    admit(b, verbs.len(), points.len(), close_need(b))?;
    if b.verbs == 0 {
        return Ok(b);
    }
    Ok(stream::push(b, verbs, points, Element::Close))
}
