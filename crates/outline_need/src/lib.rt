//! What an outline adds to a path, and how much it needs, counted from the drawn corners: each conic runs from the pen
//! that the segment before it left.

#![tactic(auto)]

ghost use Rattle.std.specs.Prelude.{◌≡◌, ◌∷◌, []};
ghost use Rattle.stream.specs.Stream.{need_of, origin};
ghost use Rattle.conic_writer.specs.Entries.{elements_of};
ghost use Rattle.outline_corners.specs.Calls.{conic_call, calls_forwards, calls_backwards, calls_of, drawing_of, calls_in};
ghost use Rattle.outline_need.specs.Entries.{Passes, last_point, entries_along, outline_entries};

use calls::Call;
use geometry::Point;
use outline_corners::{ConicArc, Corner, OctantArcs, Outline};
use shape::RoundSuperellipse;
use stream::{Builder, Need};

// A cubic's need.
const CUBIC: Need = Need {
    verbs: 1,
    points: 3,
};

// A conic's need on a path that holds something and has the pen there.
fn conic_need(pen: Point, arc: ConicArc) -> Need
    ensures { Passes pen (conic_call arc ∷ []) arc.to result }
{
    let held = Builder {
        verbs: 1,
        points: 1,
        start: pen,
        pen: pen,
    };
    let ctrl = arc.ctrl;
    let to = arc.to;
    calls::need(held, Call::ConicTo(ctrl, to, arc.weight))
}

fn forwards_need(pen: Point, o: OctantArcs) -> Need
    ensures { Passes pen (calls_forwards o) o.circle.to result }
{
    let n1 = conic_need(pen, o.first);
    let n2 = conic_need(o.first.to, o.second);
    n1 + n2 + CUBIC
}

// Its first conic runs from the end of its cubic, wherever the pen was.
fn backwards_need(pen: Point, o: OctantArcs) -> Need
    ensures { Passes pen (calls_backwards o) o.first.to result }
{
    let n1 = conic_need(o.circle.to, o.second);
    let n2 = conic_need(o.second.to, o.first);
    CUBIC + n1 + n2
}

fn corner_need(pen: Point, corner: Corner) -> Need
    ensures { Passes pen (calls_of corner) (last_point corner) result }
{
    match corner {
        Corner::Square(_, _) => Need {
            verbs: 2,
            points: 2,
        },
        Corner::Round(r) => {
            let n1 = forwards_need(pen, r.forwards);
            let n2 = backwards_need(r.forwards.circle.to, r.backwards);
            n1 + n2
        }
    }
}

fn last_point(corner: Corner) -> Point
    ensures { result ≡ last_point corner }
{
    match corner {
        Corner::Square(_, q) => q,
        Corner::Round(r) => r.backwards.first.to,
    }
}

/// What a drawn outline adds to a record's counts, if it is accepted.
pub fn outline_need(o: Outline) -> Need
    ensures { result
        ≡ need_of (elements_of (entries_along origin origin (calls_in (drawing_of o)))) }
{
    let corners = o.corners;
    let first = corners.first;
    let second = corners.second;
    let third = corners.third;
    let fourth = corners.fourth;
    let n1 = corner_need(o.start, first);
    let n2 = corner_need(last_point(first), second);
    let n3 = corner_need(last_point(second), third);
    let n4 = corner_need(last_point(third), fourth);
    // the move, and the closing line and the close
    let ends = Need {
        verbs: 3,
        points: 2,
    };
    n1 + n2 + n3 + n4 + ends
}

/// What the outline of a shape adds to a record's counts, if it is accepted.
pub fn need(shape: RoundSuperellipse) -> Need
    ensures { result ≡ need_of (elements_of (outline_entries shape)) }
{
    outline_need(outline_corners::draw(shape))
}
