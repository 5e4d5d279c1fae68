//! Which button of a panel file a touch goes to (docs/SPECIFICATION.md, "Touch"): for one point, and for all
//! touches of the file at once.

#![tactic(auto)]

ghost use Rattle.std.specs.Prelude.{◌≡◌, true, false, ◌+◌, ◌*◌, ◌<◌, ◌≤◌, ◌++◌, length, take, drop};
ghost use Rattle.shape.specs.Refusal.{shape_outcome_of};
ghost use Rattle.containment.specs.Contains.{contains_of};
ghost use Rattle.containment.specs.QuickReject.{is_surely_outside};
ghost use Rattle.panel_file.specs.Panel.{touches_of};
ghost use Rattle.panel_file.specs.File.{records};
ghost use Rattle.touch.specs.Touch.{code_of, place_of, top_hit, shape_of, shapes_of, takes, place_among, place_of_index, touch_answer, touch_of, results_left, count_answer, places_of, touch_all_of};
ghost use Rattle.touch.specs.Search.{points_in, places_after_shape, places_after_shapes, floats_of, count_after_record, floats_after_record};
ghost use Rattle.touch.specs.Laws.{GoesToTheLast, GoesNowhereIfLeft};

use containment::{QuickReject, contains};
use geometry::Point;
use panel_file::{Broken, Button, MOST_BUTTONS, PanelFile, Record};
use shape::{Bounds, CornerRadii, RoundSuperellipse, ShapeError};

/// The most touches that a file of 65,536 bytes holds. Arrays of the largest size and no Vec: the library has no heap.
pub const MOST_TOUCHES: usize = 5461;

/// What stands in the results for a touch that goes nowhere: the exported call lends numbers for them.
pub const NOWHERE: u32 = 0xffff_ffff;

/// A button's shape, or why it has none.
#[tactic(auto, unfolding(crate::specs::Touch::shape_of))]
pub fn shape_of(button: Button) -> Result<RoundSuperellipse, ShapeError>
    ensures { shape_outcome_of result ≡ shape_of button }
{
    let Button {
        min,
        max,
        top_left,
        top_right,
        bottom_left,
        bottom_right,
    } = button;
    RoundSuperellipse::new(
        Bounds { min, max },
        CornerRadii {
            top_left,
            top_right,
            bottom_left,
            bottom_right,
        },
    )
}

// Which corner's arcs to try for p: those of the side of `center` where p lies. Another corner would cost time, never
// a wrong answer.
fn nearest(same: bool, center: Point, p: Point) -> usize
    ensures corner { result < 4 }
    ensures first { same ≡ true → result ≡ 0 }
{
    if same {
        return 0;
    }
    2 * usize::from(p.x < center.x) + usize::from(p.y >= center.y)
}

// Whether a shape contains a point, for the few points that the arcs leave open. The shape is lent and this is a call
// of its own: a shape by value is copied for every touch, ahead of the tests that nearly all touches end with.
#[inline(never)]
fn holds(shape: &RoundSuperellipse, p: Point) -> bool
    ensures { result ≡ contains_of shape.now p }
{
    contains(*shape, p)
}

// Where a touch goes at a shape, after those on top of it: a button on top keeps the touch. Of nearly every touch that
// lies outside, the arcs of one corner show it. This and the definition of its name alone choose the button.
#[tactic(auto, unfolding(crate::specs::Touch::code_of, crate::specs::Touch::place_of, crate::specs::Touch::top_hit))]
fn top_hit(found: u32, index: u32, shape: &RoundSuperellipse, arcs: QuickReject, p: Point) -> u32
    requires { is_surely_outside arcs shape.now.all_corners_same p ≡ true → contains_of shape.now p ≡ false }
    ensures { result ≡ code_of (top_hit (place_of found) index (contains_of shape.now p)) }
{
    if found != NOWHERE {
        return found;
    }
    if containment::is_surely_outside(arcs, shape.all_corners_same, p) {
        return NOWHERE;
    }
    if holds(shape, p) {
        return index;
    }
    NOWHERE
}

// One shape against every touch. Points and results side by side, here and below, and no struct of both: what slices
// that were lent to a struct's fields hold afterwards is not known to the check.
fn try_shape(shape: RoundSuperellipse, index: u32, points: &[f32], results: &mut [u32])
    requires { length points.now ≡ 2 * length results.old }
    ensures { results.new
        ≡ places_after_shape (contains_of shape) index (points_in points.now) results.old }
{
    let arcs = containment::quick_rejects(shape);
    let same = shape.all_corners_same;
    let first = arcs[0];
    for (i, found) in results.iter_mut().enumerate() {
        let p = Point {
            x: points[2 * i],
            y: points[2 * i + 1],
        };
        let near = arcs[nearest(same, first.offset, p)];
        *found = top_hit(*found, index, &shape, near, p);
    }
}

// One button against every touch; a refused shape takes none. Where every touch has its button no shape is made.
fn try_button(button: Button, index: u32, points: &[f32], results: &mut [u32])
    requires { length points.now ≡ 2 * length results.old }
    ensures { results.new
        ≡ places_after_shape (takes (shape_of button)) index (points_in points.now) results.old }
{
    if !results.contains(&NOWHERE) {
        return;
    }
    if let Ok(shape) = shape_of(button) {
        try_shape(shape, index, points, results);
    }
}

// Every button of a good file against every touch, the last first, since it lies on top: so a touch that has a button
// is left alone. Each shape is made once.
fn search(file: &PanelFile, points: &[f32], results: &mut [u32])
    requires { length points.now ≡ 2 * length results.old }
    ensures { results.new
        ≡ places_after_shapes (points_in points.now) 0 (shapes_of (records file.now)) results.old }
{
    let mut offsets = [0u16; MOST_BUTTONS];
    let n = file.button_offsets(&mut offsets);
    for i in (0..n).rev() {
        if let Some(button) = file.button_at(offsets[i]) {
            try_button(button, i as u32, points, results);
        }
    }
}

// Where a touch at p goes in a good file.
fn place(file: &PanelFile, p: Point) -> Option<usize>
    ensures { place_of_index result ≡ place_among (records file.now) p }
{
    let points = [p.x, p.y];
    let mut results = [NOWHERE];
    search(file, &points, &mut results);
    let found = results[0];
    if found == NOWHERE {
        return None;
    }
    Some(found as usize)
}

/// The index of the button that a touch at p goes to, among those of the whole file, if it goes to one.
#[tactic(auto, unfolding(crate::specs::Touch::touch_of, crate::specs::Touch::touch_answer, panel_file::specs::File::new_answer, panel_file::specs::Panel::on_done))]
pub fn touch(file: &[u8], p: Point) -> Result<Option<usize>, Broken>
    ensures { touch_answer result ≡ touch_of file.now p }
{
    let file = PanelFile::new(file)?;
    Ok(place(&file, p))
}

// A record's point behind the n points that are held, if it is a touch; the answer counts them.
#[tactic(auto, unfolding(crate::specs::Search::count_after_record, crate::specs::Search::floats_after_record))]
fn keep(record: Record, points: &mut [f32], n: usize) -> usize
    requires { 2 * n + 1 < length points.old }
    ensures value { result ≡ count_after_record «record» n }
    ensures points_after { points.new ≡ floats_after_record «record» n points.old }
{
    match record {
        Record::Button(_) => n,
        Record::Touch(p) => {
            points[2 * n] = p.x;
            points[2 * n + 1] = p.y;
            n + 1
        }
    }
}

// The points of a good file's touches, in file order.
fn gather(file: &PanelFile, points: &mut [f32])
    requires { 10922 ≤ length points.old }
    ensures { let touches = touches_of (records file.now) in
        take (2 * length touches) points.new ≡ floats_of touches }
{
    let mut n = 0;
    for record in file.records() {
        n = keep(record, points, n);
    }
}

/// Where the touches of a good file go, in file order; the answer counts them. Results past them stay as they were.
pub fn places(file: &PanelFile, results: &mut [u32; 5461]) -> usize
    ensures count { result ≡ length (touches_of (records file.now)) }
    ensures results_after { results.new ≡ places_of (records file.now) ++ drop result results.old }
{
    let n = file.counts().touches;
    let mut points = [0.0f32; 10922];
    gather(file, &mut points);
    results[..n].fill(NOWHERE);
    search(file, &points[..2 * n], &mut results[..n]);
    n
}

/// `touch` for every touch of the file, in file order, each shape made once. Results past the file's touches stay as
/// they were, and on a refusal all of them.
pub fn touch_all(file: &[u8], results: &mut [u32; 5461]) -> Result<usize, Broken>
    ensures { results_left (count_answer result) results.new ≡ touch_all_of file.now results.old }
{
    let file = PanelFile::new(file)?;
    Ok(places(&file, results))
}

/// A touch goes to the last button in file order that takes it, and nowhere only where none does.
pub fn the_top_button_takes_the_touch()
    ensures last { GoesToTheLast }
    ensures nowhere { GoesNowhereIfLeft }
{}
