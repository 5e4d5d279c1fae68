//! Writing a conic behind the held elements: one line, or the quads that halving leaves, with the
//! joint word that marks where they start.

#![tactic(auto)]

ghost use Rattle.std.specs.Prelude.{◌≡◌, false, ◌∷◌, [], ◌+◌, ◌*◌, ◌^◌, ◌<◌, ◌≤◌, length, replicate};
ghost use Rattle.conic.specs.Conic.{flat_of};
ghost use Rattle.conic.specs.Vectors.{point_in, conic_in};
ghost use Rattle.conic.specs.Halving.{is_one_quad, halve, word_of, pieces_of, count_of};
ghost use Rattle.stream.specs.Stream.{put, floats_in, bytes_of, all_floats, state, push, push_all, Fits, FitsOne};
ghost use Rattle.conic_writer.specs.Entries.{elements_of, quads_of, lowered_of, plainly_written, after_quads};

use conic::{Conic, Lowered, MAX_DEPTH};
use geometry::Point;
use std::simd::prelude::*;
use stream::{Builder, Element};

/// The record after a conic, and its joint word.
#[derive(Drop)]
pub struct Written {
    pub builder: Builder,
    pub word: u64,
}

// What is no conic has no joint word.
impl From<Builder> for Written {
    ghost from_gives = { λ b w. w ≡ plainly_written b };

    fn from(builder: Builder) -> Written {
        Written { builder, word: 0 }
    }
}

// How many quads were written, and the bits where they start.
#[derive(Drop)]
struct Marks {
    count: usize,
    word: u64,
}

// The point behind the quads written, and the bits where quads start.
#[derive(Drop)]
struct Progress {
    at: usize,
    word: u64,
}

// The points of a quad with the first point of `ctrl` and to the second one of `ends`, from point `at` on.
#[inline(always)]
fn put_quad(points: &mut [f32], at: usize, ctrl: f32x4, ends: f32x4)
    requires { 2 * (at + 2) ≤ length points.old }
    ensures { points.new
        ≡ put points.old (2 * at) (floats_in (point_in ctrl 0 ∷ point_in ends 2 ∷ [])) }
{
    let i = 2 * at;
    let [x1, y1, x2, y2] = ctrl.shuffle(ends, [0, 1, 6, 7]).to_array();
    points[i] = x1;
    points[i + 1] = y1;
    points[i + 2] = x2;
    points[i + 3] = y2;
}

// A conic's only quad, as verb v and with its points from p on. The conic has the first point of `ctrl` and
// ends at the second one of `ends`.
#[inline(always)]
fn push_piece(v: usize, p: usize, verbs: &mut [u8], points: &mut [f32], ends: f32x4, ctrl: f32x4)
    requires verb_room { v < length verbs.old }
    requires point_room { 2 * (p + 2) ≤ length points.old }
    ensures verbs_after { verbs.new ≡ put verbs.old v (2 ∷ []) }
    ensures points_after { points.new
        ≡ put points.old (2 * p) (floats_in (point_in ctrl 0 ∷ point_in ends 2 ∷ [])) }
{
    verbs[v] = 2;
    put_quad(points, p, ctrl, ends);
}

// The quads of a conic, their points from point `at` on, and the bits where they start; `one` says whether it is
// one. Halving calls itself, twice for each split, with the depth still allowed falling from 6. The conic runs
// from and to the points in `ends`; `ctrl` begins with its control. The place and the word come and go by value,
// and so stay in registers.
fn push_conic(
    points: &mut [f32],
    at: usize,
    word: u64,
    ends: f32x4,
    ctrl: f32x4,
    w: f32,
    depth: usize,
    start: usize,
    one: bool,
) -> Progress
    requires one_quad { one ≡ is_one_quad depth (conic_in ends ctrl w) }
    requires falling { depth ≤ 6 }
    requires span { start + 2 ^ depth ≤ 64 }
    requires point_room { 2 * (at + 2 * length (halve depth (conic_in ends ctrl w) start))
        ≤ length points.old }
    requires bit_room { word + word_of (halve depth (conic_in ends ctrl w) start) < 2 ^ 64 }
    ensures points_after { points.new
        ≡ put points.old (2 * at)
        (all_floats (quads_of (halve depth (conic_in ends ctrl w) start))) }
    ensures at_after { result.at ≡ at + 2 * length (halve depth (conic_in ends ctrl w) start) }
    ensures word_after { result.word ≡ word + word_of (halve depth (conic_in ends ctrl w) start) }
{
    if one {
        put_quad(points, at, ctrl, ends);
        let word = word + (1 << start);
        return Progress { at: at + 2, word };
    }
    let d = depth - 1;
    let h = conic::subdivide(ends, ctrl, w);
    let u = conic::half_weight(w);
    let right_ctrl = conic::second(h.ctrls);
    let last = (d == 0) | conic::is_near_one(u);
    let near = conic::is_near(h.left, h.ctrls, h.right, u);
    let l = last | near.left;
    let r = last | near.right;
    let next = start + (1 << d);
    let mid = push_conic(points, at, word, h.left, h.ctrls, u, d, start, l);
    push_conic(points, mid.at, mid.word, h.right, right_ctrl, u, d, next, r)
}

// At most four quads as verbs from v on.
fn fill_few(verbs: &mut [u8], v: usize, n: usize)
    requires few { n ≤ 4 }
    requires verb_room { v + n ≤ length verbs.old }
    ensures { verbs.new ≡ put verbs.old v (replicate n 2) }
{
    if n == 0 {
        return;
    }
    verbs[v] = 2;
    if n == 1 {
        return;
    }
    verbs[v + 1] = 2;
    if n == 2 {
        return;
    }
    verbs[v + 2] = 2;
    if n == 3 {
        return;
    }
    verbs[v + 3] = 2;
}

// Any number of quads as verbs from v on. For more than a few it is a call of the library, which costs more than
// the few bytes that most conics have.
fn fill_quads(verbs: &mut [u8], v: usize, n: usize)
    requires { v + n ≤ length verbs.old }
    ensures { verbs.new ≡ put verbs.old v (replicate n 2) }
{
    if n <= 4 {
        fill_few(verbs, v, n);
    } else if n <= 8 {
        fill_few(verbs, v, 4);
        fill_few(verbs, v + 4, n - 4);
    } else {
        verbs[v..v + n].fill(2);
    }
}

// The quads of a conic that is more than one, as verbs from v on and points from p on. Compiled in place in both
// of its callers, each of which is compiled apart.
#[inline(always)]
fn push_curve(
    v: usize,
    p: usize,
    verbs: &mut [u8],
    points: &mut [f32],
    ends: f32x4,
    ctrl: f32x4,
    w: f32,
) -> Marks
    requires curved { flat_of (conic_in ends ctrl w) ≡ false }
    requires verb_room { v + count_of (conic_in ends ctrl w) ≤ length verbs.old }
    requires point_room { 2 * (p + 2 * count_of (conic_in ends ctrl w)) ≤ length points.old }
    ensures verbs_after { verbs.new
        ≡ put verbs.old v (bytes_of (quads_of (pieces_of (conic_in ends ctrl w)))) }
    ensures points_after { points.new
        ≡ put points.old (2 * p) (all_floats (quads_of (pieces_of (conic_in ends ctrl w)))) }
    ensures count { result.count ≡ count_of (conic_in ends ctrl w) }
    ensures word { result.word ≡ word_of (pieces_of (conic_in ends ctrl w)) }
{
    let end = push_conic(points, p, 0, ends, ctrl, w, MAX_DEPTH, 0, false);
    let count = (end.at - p) / 2;
    fill_quads(verbs, v, count);
    Marks {
        count,
        word: end.word,
    }
}

// The quads of a conic as verbs from v on and points from p on, for which there is room, and how many they are.
// Compiled apart. Neither start nor pen of a record has a part in it. What comes and goes are vectors and numbers,
// which stay in registers: a record of floats would be stored one by one and read two by two, for which a
// processor waits.
#[inline(never)]
fn push_quads(
    v: usize,
    p: usize,
    verbs: &mut [u8],
    points: &mut [f32],
    ends: f32x4,
    ctrl: f32x4,
    w: f32,
) -> usize
    requires verb_room { v + count_of (conic_in ends ctrl w) ≤ length verbs.old }
    requires point_room { 2 * (p + 2 * count_of (conic_in ends ctrl w)) ≤ length points.old }
    ensures verbs_after { verbs.new
        ≡ put verbs.old v (bytes_of (quads_of (pieces_of (conic_in ends ctrl w)))) }
    ensures points_after { points.new
        ≡ put points.old (2 * p) (all_floats (quads_of (pieces_of (conic_in ends ctrl w)))) }
    ensures count { result ≡ count_of (conic_in ends ctrl w) }
{
    let c = conic::of_vectors(ends, ctrl, w);
    if conic::is_flat(c) {
        push_piece(v, p, verbs, points, ends, ctrl);
        return 1;
    }
    push_curve(v, p, verbs, points, ends, ctrl, w).count
}

// The record behind so many quads, the last of which ends at `to`.
fn after_quads(b: Builder, count: usize, to: Point) -> Builder
    requires verbs { b.verbs + count < 2 ^ 64 }
    requires points { b.points + 2 * count < 2 ^ 64 }
    ensures { result ≡ after_quads b count to }
{
    Builder {
        verbs: b.verbs + count,
        points: b.points + 2 * count,
        pen: to,
        ..b
    }
}

/// A conic's only quad behind the held elements, for which there is room. The conic comes as vectors: the
/// points of an element would be packed into words and taken apart again.
pub fn push_single(
    b: Builder,
    verbs: &mut [u8],
    points: &mut [f32],
    ends: f32x4,
    ctrl: f32x4,
) -> Builder
    requires { FitsOne b verbs.old points.old (Element.Quad (point_in ctrl 0) (point_in ends 2)) }
    ensures { state result verbs.new points.new
        ≡ push (state b verbs.old points.old) (Element.Quad (point_in ctrl 0) (point_in ends 2)) }
{
    push_piece(b.verbs, b.points, verbs, points, ends, ctrl);
    let [_, _, x, y] = ends.to_array();
    after_quads(b, 1, Point { x, y })
}

/// The quads of a conic that is more than one, behind the held elements, for which there is room, with their
/// joint word. The conic comes as numbers and vectors for the same reason.
pub fn push_split(
    b: Builder,
    verbs: &mut [u8],
    points: &mut [f32],
    ends: f32x4,
    ctrl: f32x4,
    w: f32,
) -> Written
    requires curved { flat_of (conic_in ends ctrl w) ≡ false }
    requires room { Fits b verbs.old points.old (quads_of (pieces_of (conic_in ends ctrl w))) }
    ensures points_after { state result.builder verbs.new points.new
        ≡ push_all (state b verbs.old points.old) (quads_of (pieces_of (conic_in ends ctrl w))) }
    ensures word_value { result.word ≡ word_of (pieces_of (conic_in ends ctrl w)) }
{
    let m = push_curve(b.verbs, b.points, verbs, points, ends, ctrl, w);
    let c = conic::of_vectors(ends, ctrl, w);
    Written {
        builder: after_quads(b, m.count, c.to),
        word: m.word,
    }
}

/// What a conic is lowered to, behind the held elements, for which there is room, where nobody asks for the
/// joint word.
pub fn push_unmarked(b: Builder, verbs: &mut [u8], points: &mut [f32], l: Lowered) -> Builder
    requires { Fits b verbs.old points.old (elements_of (lowered_of l)) }
    ensures { state result verbs.new points.new
        ≡ push_all (state b verbs.old points.old) (elements_of (lowered_of l)) }
{
    match l {
        Lowered::Line(p) => stream::push(b, verbs, points, Element::Line(p)),
        Lowered::Curve(c) => {
            let count = push_quads(
                b.verbs,
                b.points,
                verbs,
                points,
                conic::ends(c),
                conic::ctrl(c),
                c.weight,
            );
            after_quads(b, count, c.to)
        }
    }
}
