//! The calls move, line and close in place: the builder record is lent, and changes where it lies.

#![tactic(auto)]

ghost use Rattle.std.specs.Prelude.{◌≡◌, IfErr};
ghost use Rattle.stream.specs.Stream.{state};
ghost use Rattle.calls.specs.Calls.{record_of, step};
ghost use Rattle.builder_in_place.specs.InPlace.{outcome_in_place};
ghost use Rattle.builder_in_place.specs.Triangle.{sides, trace_of, triangle_trace};

use calls::{BuildError, Call};
use geometry::Point;
use stream::Builder;

/// A move in place. Each of the three makes the call by value, and stores the record that comes back. A refusal
/// leaves the record. Three thin functions and no generic one: each has its own parameters.
pub fn move_to(
    b: &mut Builder,
    verbs: &mut [u8],
    points: &mut [f32],
    p: Point,
) -> Result<(), BuildError>
    ensures outcome { outcome_in_place b.new result verbs.new points.new
        ≡ step (state b.old verbs.old points.old) (Call.MoveTo p) }
    ensures refused { IfErr result (λ e. record_of e ≡ b.new) }
{
    *b = calls::move_to(*b, verbs, points, p)?;
    Ok(())
}

/// A line in place.
pub fn line_to(
    b: &mut Builder,
    verbs: &mut [u8],
    points: &mut [f32],
    p: Point,
) -> Result<(), BuildError>
    ensures outcome { outcome_in_place b.new result verbs.new points.new
        ≡ step (state b.old verbs.old points.old) (Call.LineTo p) }
    ensures refused { IfErr result (λ e. record_of e ≡ b.new) }
{
    *b = calls::line_to(*b, verbs, points, p)?;
    Ok(())
}

/// A close in place.
pub fn close(b: &mut Builder, verbs: &mut [u8], points: &mut [f32]) -> Result<(), BuildError>
    ensures outcome { outcome_in_place b.new result verbs.new points.new
        ≡ step (state b.old verbs.old points.old) Call.Close }
    ensures refused { IfErr result (λ e. record_of e ≡ b.new) }
{
    *b = calls::close(*b, verbs, points)?;
    Ok(())
}

/// The record behind a triangle's four calls, and what each answered.
#[derive(Drop)]
pub struct TriangleAnswers {
    pub builder: Builder,
    pub moved: Result<(), BuildError>,
    pub second: Result<(), BuildError>,
    pub third: Result<(), BuildError>,
    pub closed: Result<(), BuildError>,
}

/// A closed triangle by calls in place, each of which is made whatever the ones before it answered.
pub fn triangle(
    b: Builder,
    verbs: &mut [u8],
    points: &mut [f32],
    p: Point,
    q: Point,
    r: Point,
) -> TriangleAnswers
    ensures { triangle_trace result verbs.new points.new
        ≡ trace_of (state b verbs.old points.old) (sides p q r) }
{
    let mut held = b;
    let moved = move_to(&mut held, verbs, points, p);
    let second = line_to(&mut held, verbs, points, q);
    let third = line_to(&mut held, verbs, points, r);
    let closed = close(&mut held, verbs, points);
    TriangleAnswers {
        builder: held,
        moved,
        second,
        third,
        closed,
    }
}
