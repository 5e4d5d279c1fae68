//! A reply put into a lent buffer, text by text, each whole or not at all: the answer is the index past what was put.
//! This is total, and says the whole buffer in every case, where the clause of a `Display` speaks only of an `fmt`
//! that answers Ok; so `Display` writes what is put here.
ghost use Rattle.std.specs.Prelude.{◌≡◌, ◌^◌, ◌<◌};
ghost use Rattle.text.specs.Written.{decimal_text, hexadecimal_text, single_text};
ghost use Rattle.replies.specs.Placed.{written, ◌▸◌, put_counts, put_point, put_segment, put_next, put_record, put_done, put_numbered, put_box, put_worded, put_reply, put_line, Small};

use crate::Reply;
use geometry::Point;
use reader::{Cursor, Rect, Segment};
use stream::Builder;

#[tactic(auto, using(crate::proofs::Writing::one_text_more))]
fn word(out: &mut [u8], at: usize, text: &[u8]) -> usize
    ensures { written result out.new ≡ written at out.old ▸ text.now }
{
    text::put(out, at, text)
}

#[tactic(auto, using(crate::proofs::Writing::one_text_more))]
fn decimal(out: &mut [u8], at: usize, n: u64) -> usize
    ensures { written result out.new ≡ written at out.old ▸ decimal_text n }
{
    text::put_decimal(out, at, n)
}

#[tactic(auto, using(crate::proofs::Writing::one_text_more))]
fn hexadecimal(out: &mut [u8], at: usize, n: u64) -> usize
    ensures { written result out.new ≡ written at out.old ▸ hexadecimal_text n }
{
    text::put_hexadecimal(out, at, n)
}

#[tactic(auto, using(crate::proofs::Writing::one_text_more))]
fn single(out: &mut [u8], at: usize, x: f32) -> usize
    ensures { written result out.new ≡ written at out.old ▸ single_text x }
{
    text::put_float(out, at, x)
}

#[tactic(auto, unfolding(crate::specs::Placed::put_counts))]
fn counts(out: &mut [u8], at: usize, a: usize, b: usize) -> usize
    ensures put { written result out.new ≡ put_counts (written at out.old) a b }
    ensures small { (a < 2 ^ 64) × (b < 2 ^ 64) }
{
    let n = word(out, at, b" ");
    let n = decimal(out, n, a as u64);
    let n = word(out, n, b" ");
    decimal(out, n, b as u64)
}

#[tactic(auto, unfolding(crate::specs::Placed::put_point))]
fn point(out: &mut [u8], at: usize, p: Point) -> usize
    ensures { written result out.new ≡ put_point (written at out.old) p }
{
    let n = word(out, at, b" ");
    let n = single(out, n, p.x);
    let n = word(out, n, b" ");
    single(out, n, p.y)
}

#[tactic(auto, unfolding(crate::specs::Placed::put_segment))]
fn segment(out: &mut [u8], at: usize, s: Segment) -> usize
    ensures { written result out.new ≡ put_segment (written at out.old) s }
{
    match s {
        Segment::Move(p) => {
            let n = word(out, at, b"move");
            point(out, n, p)
        }
        Segment::Line(p) => {
            let n = word(out, at, b"line");
            point(out, n, p)
        }
        Segment::Quad(p, q) => {
            let n = word(out, at, b"quad");
            let n = point(out, n, p);
            point(out, n, q)
        }
        Segment::Cubic(p, q, r) => {
            let n = word(out, at, b"cubic");
            let n = point(out, n, p);
            let n = point(out, n, q);
            point(out, n, r)
        }
        Segment::Close => word(out, at, b"close"),
        Segment::End => word(out, at, b"end"),
    }
}

#[tactic(auto, unfolding(crate::specs::Placed::put_next))]
fn next(out: &mut [u8], at: usize, s: Segment, c: Cursor) -> usize
    ensures put { written result out.new ≡ put_next (written at out.old) s c }
    ensures small { (c.verb < 2 ^ 64) × (c.point < 2 ^ 64) }
{
    let n = segment(out, at, s);
    let n = word(out, n, b" next");
    counts(out, n, c.verb, c.point)
}

#[tactic(auto, unfolding(crate::specs::Placed::put_record))]
fn whole_record(out: &mut [u8], at: usize, b: Builder) -> usize
    ensures put { written result out.new ≡ put_record (written at out.old) b }
    ensures small { (b.verbs < 2 ^ 64) × (b.points < 2 ^ 64) }
{
    let n = word(out, at, b"record");
    let n = counts(out, n, b.verbs, b.points);
    let n = point(out, n, b.start);
    point(out, n, b.pen)
}

#[tactic(auto, unfolding(crate::specs::Placed::put_done))]
fn done(out: &mut [u8], at: usize, b: Builder) -> usize
    ensures put { written result out.new ≡ put_done (written at out.old) b }
    ensures small { (b.verbs < 2 ^ 64) × (b.points < 2 ^ 64) }
{
    let n = word(out, at, b"ok");
    counts(out, n, b.verbs, b.points)
}

#[tactic(auto, unfolding(crate::specs::Placed::put_numbered))]
fn numbered(out: &mut [u8], at: usize, name: &[u8], k: u64) -> usize
    ensures { written result out.new ≡ put_numbered (written at out.old) name.now k }
{
    let n = word(out, at, name);
    decimal(out, n, k)
}

#[tactic(auto, unfolding(crate::specs::Placed::put_box))]
fn corners(out: &mut [u8], at: usize, b: &Rect) -> usize
    ensures { written result out.new ≡ put_box (written at out.old) b.now }
{
    let n = word(out, at, b"box");
    let n = point(out, n, b.min);
    point(out, n, b.max)
}

#[tactic(auto, unfolding(crate::specs::Placed::put_worded))]
fn worded(out: &mut [u8], at: usize, b: Builder, joints: u64) -> usize
    ensures put { written result out.new ≡ put_worded (written at out.old) b joints }
    ensures small { (b.verbs < 2 ^ 64) × (b.points < 2 ^ 64) }
{
    let n = done(out, at, b);
    let n = word(out, n, b" word ");
    hexadecimal(out, n, joints)
}

#[tactic(auto, unfolding(crate::specs::Placed::put_reply, crate::specs::Placed::Small))]
fn put_reply(out: &mut [u8], reply: &Reply) -> usize
    ensures put { written result out.new ≡ put_reply (written 0 out.old) reply.now }
    ensures small { Small reply.now }
{
    match reply {
        Reply::Element(s) => segment(out, 0, *s),
        Reply::Read(s, c) => next(out, 0, *s, *c),
        Reply::Record(b) => whole_record(out, 0, *b),
        Reply::End => word(out, 0, b"end"),
        Reply::Empty => word(out, 0, b"empty"),
        Reply::Box(r) => corners(out, 0, r),
        Reply::Done(b) => done(out, 0, *b),
        Reply::Worded(b, joints) => worded(out, 0, *b, *joints),
        Reply::Yes => word(out, 0, b"1"),
        Reply::No => word(out, 0, b"0"),
        Reply::Refused(n) => numbered(out, 0, b"refused ", *n),
        Reply::Malformed(v) => numbered(out, 0, b"refused 6 at ", *v),
        Reply::BadLine(n) => numbered(out, 0, b"bad line ", *n),
    }
}

/// The reply and the end of the line, from the start of out.
#[tactic(auto, unfolding(crate::specs::Placed::put_line))]
pub fn put(out: &mut [u8], reply: &Reply) -> usize
    ensures line { written result out.new ≡ put_line (written 0 out.old) reply.now }
    ensures small { Small reply.now }
{
    let n = put_reply(out, reply);
    word(out, n, b"\n")
}
