//! A building call given as a value, and lists of them one after the other, so that the theorem about every list
//! (specs/Faithful.antt) is about the code that runs.

#![tactic(auto)]

ghost use Rattle.std.specs.Prelude.{◌≡◌, length};
ghost use Rattle.stream.specs.Stream.{state};
ghost use Rattle.conic_writer.specs.Entries.{elements_of};
ghost use Rattle.calls.specs.Calls.{conic_outcome_of};
ghost use Rattle.outline.specs.Step.{step};
ghost use Rattle.book.specs.Machine.{answers};
ghost use Rattle.book.specs.Book.{builder_machine};
ghost use Rattle.book.specs.Lists.{ReadsAs, state_after};
ghost use Rattle.building.specs.Faithful.{book_in, Faithful, EveryListIsFaithful, EveryFreshListIsFaithful, EveryConicFindsRoom, EveryOutlineFindsRoom};

use book::Reply;
use calls::BuildError;
use conic_writer::Written;
use outline::BuildingCall;
use stream::Builder;

/// Answers as the call does; the joint word is 0 where the call has none.
pub fn apply(
    b: Builder,
    verbs: &mut [u8],
    points: &mut [f32],
    call: BuildingCall,
) -> Result<Written, BuildError>
    ensures { conic_outcome_of result verbs.new points.new
        ≡ step (state b verbs.old points.old) call }
{
    match call {
        BuildingCall::MoveTo(p) => calls::move_to(b, verbs, points, p).map(Written::from),
        BuildingCall::LineTo(p) => calls::line_to(b, verbs, points, p).map(Written::from),
        BuildingCall::QuadTo(ctrl, p) => {
            calls::quad_to(b, verbs, points, ctrl, p).map(Written::from)
        }
        BuildingCall::ConicTo(ctrl, to, weight) => {
            calls::conic_to(b, verbs, points, ctrl, to, weight)
        }
        BuildingCall::CubicTo(c0, c1, p) => {
            calls::cubic_to(b, verbs, points, c0, c1, p).map(Written::from)
        }
        BuildingCall::Close => calls::close(b, verbs, points).map(Written::from),
        BuildingCall::AddTo(shape) => {
            outline::add_to(shape, b, verbs, points).map(Written::from)
        }
    }
}

/// Performs calls one after the other. A refused call changes nothing, and the next one goes on. The answers go to
/// `replies`, one for each call.
pub fn perform(
    calls: &[BuildingCall],
    b: Builder,
    verbs: &mut [u8],
    points: &mut [f32],
    replies: &mut [Reply],
) -> Builder
    requires { length replies.old ≡ length calls.now }
    ensures left { state result verbs.new points.new
        ≡ state_after step b verbs.old points.old calls.now }
    ensures replies { replies.new
        ≡ answers (builder_machine step) (state b verbs.old points.old) calls.now }
    // From an empty record, what is left reads as the book of the list.
    ensures reads_back { b.verbs ≡ 0 → b.points ≡ 0 → ReadsAs (state result verbs.new points.new)
        (elements_of (book_in (length verbs.old) (length points.old) calls.now).entries) }
    ensures faithful { b.verbs ≡ 0 → b.points ≡ 0
        → Faithful b verbs.old points.old calls.now }
{
    let mut current = b;
    for (i, call) in calls.iter().enumerate() {
        match apply(current, verbs, points, *call) {
            Ok(written) => {
                current = written.builder;
                replies[i] = Reply {
                    number: 0,
                    word: written.word,
                };
            }
            Err(refusal) => {
                current = refusal.builder();
                replies[i] = Reply {
                    number: refusal.number(),
                    word: 0,
                };
            }
        }
    }
    current
}

/// Every list of building calls reads back as its book, over any two buffers: from any record with both counts 0, and
/// so from the fresh one.
pub fn every_list_is_faithful()
    ensures empty { EveryListIsFaithful }
    ensures fresh { EveryFreshListIsFaithful }
{}

/// There are lists that the clauses about an accepted call speak of: in buffers that hold the largest one every conic
/// is accepted, and every outline.
pub fn every_call_finds_room()
    ensures conics { EveryConicFindsRoom }
    ensures outlines { EveryOutlineFindsRoom }
{}

#[cfg(test)]
mod tests {
    use super::*;
    use geometry::Point;
    use std::test::Fail;

    // A line opens the path, a quad finds no room behind it, and a close does.
    #[test]
    fn goes_on_behind_a_refusal(rt: HostRuntime) -> Result<(), Fail> {
        let p = Point { x: 1.0, y: 2.0 };
        let calls = [
            BuildingCall::LineTo(p),
            BuildingCall::QuadTo(p, p),
            BuildingCall::Close,
        ];
        let mut verbs = [9u8; 3];
        let mut points = [0.0f32; 4];
        let mut replies = [Reply { number: 9, word: 9 }; 3];
        let b = perform(&calls, stream::new(), &mut verbs, &mut points, &mut replies);
        assert_eq!(rt; (b.verbs, b.points), (3, 2));
        assert_eq!(rt; verbs, [0, 1, 4]);
        let numbers = [replies[0].number, replies[1].number, replies[2].number];
        assert_eq!(rt; numbers, [0, 5, 0]);
        assert_eq!(rt; replies[1].word, 0);
        Ok(())
    }
}
