//! The outline of a shape as a building call: its need is counted before anything is written, and it is written whole
//! or not at all.

#![tactic(auto)]

ghost use Rattle.std.specs.Prelude.{◌≡◌};
ghost use mathlib.Core.List.{◌∷◌, [], flatten};
ghost use Rattle.stream.specs.Stream.{state, origin, need_of};
ghost use Rattle.conic_writer.specs.Entries.{elements_of};
ghost use Rattle.calls.specs.Calls.{outcome_of, admit_of};
ghost use Rattle.outline_corners.specs.Calls.{conic_call, calls_forwards, calls_backwards, calls_of, call_lists, drawing_of, calls_in};
ghost use Rattle.outline_need.specs.Entries.{entries_along, push_calls, RoomAlong};
ghost use Rattle.outline.specs.Step.{step};

use calls::BuildError;
use conic::Conic;
use geometry::Point;
use outline_corners::{ConicArc, Corner, Corners, OctantArcs, Outline};
use shape::RoundSuperellipse;
use stream::{Builder, Element, Need};

/// The most verbs that an outline has.
pub const MOST_VERBS: usize = 1035;

/// The most points that it has.
pub const MOST_POINTS: usize = 2074;

/// A building call as a value: the six of path.rs, and the outline of a shape.
/// Stays an enum of seven: with the six as one case that holds a calls::Call, each use of them would name two cases.
#[derive(Clone, Copy)]
pub enum BuildingCall {
    MoveTo(Point),
    LineTo(Point),
    QuadTo(Point, Point),
    ConicTo(Point, Point, f32),
    CubicTo(Point, Point, Point),
    Close,
    AddTo(RoundSuperellipse),
}

// A conic from the pen, behind the held elements, for which there is room.
fn push_conic(b: Builder, verbs: &mut [u8], points: &mut [f32], arc: ConicArc) -> Builder
    requires { RoomAlong (state b verbs.old points.old) (conic_call arc ∷ []) }
    ensures { state result verbs.new points.new
        ≡ push_calls (state b verbs.old points.old) (conic_call arc ∷ []) }
{
    let from = b.pen;
    let ctrl = arc.ctrl;
    let to = arc.to;
    let l = conic::lower(Conic {
        from: from,
        ctrl: ctrl,
        to: to,
        weight: arc.weight,
    });
    conic_writer::push_unmarked(b, verbs, points, l)
}

// An octant, a corner and an outline likewise.
fn push_forwards(b: Builder, verbs: &mut [u8], points: &mut [f32], o: OctantArcs) -> Builder
    requires { RoomAlong (state b verbs.old points.old) (calls_forwards o) }
    ensures { state result verbs.new points.new
        ≡ push_calls (state b verbs.old points.old) (calls_forwards o) }
{
    let b1 = push_conic(b, verbs, points, o.first);
    let b2 = push_conic(b1, verbs, points, o.second);
    stream::push(
        b2,
        verbs,
        points,
        Element::Cubic(o.circle.c0, o.circle.c1, o.circle.to),
    )
}

fn push_backwards(b: Builder, verbs: &mut [u8], points: &mut [f32], o: OctantArcs) -> Builder
    requires { RoomAlong (state b verbs.old points.old) (calls_backwards o) }
    ensures { state result verbs.new points.new
        ≡ push_calls (state b verbs.old points.old) (calls_backwards o) }
{
    let b1 = stream::push(
        b,
        verbs,
        points,
        Element::Cubic(o.circle.c0, o.circle.c1, o.circle.to),
    );
    let b2 = push_conic(b1, verbs, points, o.second);
    push_conic(b2, verbs, points, o.first)
}

fn push_corner(b: Builder, verbs: &mut [u8], points: &mut [f32], corner: Corner) -> Builder
    requires { RoomAlong (state b verbs.old points.old) (calls_of corner) }
    ensures { state result verbs.new points.new
        ≡ push_calls (state b verbs.old points.old) (calls_of corner) }
{
    match corner {
        Corner::Square(p, q) => {
            let b1 = stream::push(b, verbs, points, Element::Line(p));
            stream::push(b1, verbs, points, Element::Line(q))
        }
        Corner::Round(r) => {
            let b1 = push_forwards(b, verbs, points, r.forwards);
            push_backwards(b1, verbs, points, r.backwards)
        }
    }
}

fn push_corners(b: Builder, verbs: &mut [u8], points: &mut [f32], corners: Corners) -> Builder
    requires { RoomAlong (state b verbs.old points.old) (flatten (call_lists corners)) }
    ensures { state result verbs.new points.new
        ≡ push_calls (state b verbs.old points.old) (flatten (call_lists corners)) }
{
    let first = corners.first;
    let second = corners.second;
    let third = corners.third;
    let fourth = corners.fourth;
    let b1 = push_corner(b, verbs, points, first);
    let b2 = push_corner(b1, verbs, points, second);
    let b3 = push_corner(b2, verbs, points, third);
    push_corner(b3, verbs, points, fourth)
}

// The closing line goes to the start, not to the pen.
fn push_outline(b: Builder, verbs: &mut [u8], points: &mut [f32], o: Outline) -> Builder
    requires { RoomAlong (state b verbs.old points.old) (calls_in (drawing_of o)) }
    ensures { state result verbs.new points.new
        ≡ push_calls (state b verbs.old points.old) (calls_in (drawing_of o)) }
{
    let start = o.start;
    let corners = o.corners;
    let b1 = stream::push(b, verbs, points, Element::Move(start));
    let b2 = push_corners(b1, verbs, points, corners);
    let b3 = stream::push(b2, verbs, points, Element::Line(start));
    stream::push(b3, verbs, points, Element::Close)
}

// Buffers with room for the largest outline have room for any: only in fuller ones is the need counted.
fn admit_outline(b: Builder, verbs: usize, floats: usize, o: Outline) -> Result<(), BuildError>
    ensures { result ≡ admit_of b verbs floats
        (need_of (elements_of (entries_along origin origin (calls_in (drawing_of o))))) }
{
    let largest = Need {
        verbs: MOST_VERBS,
        points: MOST_POINTS,
    };
    calls::admit(b, verbs, floats, largest).or_else(|_| calls::admit(
        b,
        verbs,
        floats,
        outline_need::outline_need(o),
    ))
}

/// The outline behind the held elements: a move, four corners, a line to the move's point, a close.
pub fn add_to(
    shape: RoundSuperellipse,
    b: Builder,
    verbs: &mut [u8],
    points: &mut [f32],
) -> Result<Builder, BuildError>
    ensures { outcome_of result verbs.new points.new
        ≡ step (state b verbs.old points.old) (BuildingCall.AddTo shape) }
{
    let o = outline_corners::draw(shape);
    admit_outline(b, verbs.len(), points.len(), o)?;
    Ok(push_outline(b, verbs, points, o))
}
