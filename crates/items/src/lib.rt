//! What a line of the input of replay_paths asks for (docs/REPLAY.md).

#![tactic(auto)]

ghost use Rattle.std.specs.Prelude.{◌≡◌, Some, None, if◌then◌else◌};
ghost use Rattle.text.specs.Words.{after_word};
ghost use Rattle.items.specs.Items.{bad_line_text, counts_of, has_words, of_counts, of_record, of_two, of_four, of_floats, of_shape, of_name, has_counts, of_words, item_of, from_floats};
ghost use Rattle.operands.specs.Operands.{operands_of};

use geometry::Point;
use outline::BuildingCall;
use reader::Cursor;
use shape::{Bounds, CornerRadii};
use std::{error, fmt};
use stream::Builder;

/// What a line asks for.
#[derive(Drop)]
pub enum Item {
    /// A list begins, in buffers of so many verbs and floats.
    Buffers(usize, usize),
    /// A building call.
    Build(BuildingCall),
    /// The outline of a shape.
    Outline(Bounds, CornerRadii),
    /// This record in place of the list's.
    Record(Builder),
    /// A stream begins, whose record has so many verbs and points.
    Raw(usize, usize),
    /// Verbs of the stream, which are read from the line where they go.
    Verbs,
    /// Floats of the stream, likewise.
    Floats,
    /// The segment at a cursor.
    At(Cursor),
    /// The path's box.
    Box,
    /// Whether a shape contains a point.
    Contains(Bounds, CornerRadii, Point),
}

/// A line that asks for nothing that there is.
#[derive(Clone, Copy, Debug, PartialEq, Eq)]
pub struct BadLine;

impl fmt::Display for BadLine {
    ghost output = { λ _. Some bad_line_text };

    fn fmt<W: fmt::Write>(&self, f: &mut fmt::Formatter<W>) -> fmt::Result {
        f.write_str("bad line")
    }
}

impl error::Error for BadLine {}

// The first two words as numbers, and what follows them.
#[tactic(auto, using(text::proofs::Spelling::no_number), unfolding(crate::specs::Items::counts_of, crate::specs::Items::pair_of))]
fn counts(line: &[u8]) -> Option<(usize, usize)>
    ensures { result ≡ counts_of line.now }
{
    let (first, rest) = text::split_word(line)?;
    let (second, _) = text::split_word(rest)?;
    let a = text::read_number(first, 10)?;
    let b = text::read_number(second, 10)?;
    Some((a as usize, b as usize))
}

// What follows the first two words.
fn after_words(line: &[u8]) -> &[u8]
    ensures { result.now ≡ after_word (after_word line.now) }
{
    text::after_word(text::after_word(line))
}

#[tactic(auto, unfolding(crate::specs::Items::has_words))]
fn has_words(line: &[u8]) -> bool
    ensures { result ≡ has_words line.now }
{
    text::split_word(line).is_some()
}

// A name with two numbers and no more.
#[tactic(auto, unfolding(crate::specs::Items::of_counts, crate::specs::Items::from_counts))]
fn of_counts(name: &[u8], line: &[u8]) -> Option<Item>
    ensures { result ≡ of_counts name.now line.now }
{
    if has_words(after_words(line)) {
        return None;
    }
    let (a, b) = counts(line)?;
    Some(match name {
        b"buffers" => Item::Buffers(a, b),
        b"raw" => Item::Raw(a, b),
        _ => Item::At(Cursor { verb: a, point: b }),
    })
}

#[tactic(auto, unfolding(crate::specs::Items::of_record, crate::specs::Items::from_record))]
fn of_record(line: &[u8]) -> Option<Item>
    ensures { result ≡ of_record line.now }
{
    let operands = operands::read(after_words(line))?;
    let (verbs, points) = counts(line)?;
    let x = operands.as_slice();
    if x.len() != 4 {
        return None;
    }
    Some(Item::Record(Builder {
        verbs,
        points,
        start: operands::point(x, 0),
        pen: operands::point(x, 2),
    }))
}

// A name alone.
#[tactic(auto, unfolding(crate::specs::Items::of_name))]
fn of_name(name: &[u8]) -> Option<Item>
    ensures { result ≡ of_name name.now }
{
    match name {
        b"close" => Some(Item::Build(BuildingCall::Close)),
        b"box" => Some(Item::Box),
        _ => None,
    }
}

// A name with a point, with up to three, and with a shape. Where a length is compared too, so are names, by `==`: a
// `match` on the name within one on the length was tried, and its proof did not close.
#[tactic(auto, unfolding(crate::specs::Items::of_two))]
fn of_two(name: &[u8], p: Point) -> Option<Item>
    ensures { result ≡ of_two name.now p }
{
    match name {
        b"move" => Some(Item::Build(BuildingCall::MoveTo(p))),
        b"line" => Some(Item::Build(BuildingCall::LineTo(p))),
        _ => None,
    }
}

#[tactic(auto, unfolding(crate::specs::Items::of_four))]
fn of_four(name: &[u8], x: &[f32]) -> Option<Item>
    ensures { result ≡ of_four name.now x.now }
{
    let p = operands::point(x, 0);
    let q = operands::point(x, 2);
    match x.len() {
        4 if name == b"quad".as_slice() => Some(Item::Build(BuildingCall::QuadTo(p, q))),
        5 if name == b"conic".as_slice() => {
            Some(Item::Build(BuildingCall::ConicTo(p, q, operands::at(x, 4))))
        }
        4 | 5 => None,
        _ if name == b"cubic".as_slice() => Some(Item::Build(BuildingCall::CubicTo(
            p,
            q,
            operands::point(x, 4),
        ))),
        _ => None,
    }
}

#[tactic(auto, unfolding(crate::specs::Items::of_shape))]
fn of_shape(name: &[u8], x: &[f32]) -> Option<Item>
    ensures { result ≡ of_shape name.now x.now }
{
    let bounds = operands::bounds(x);
    let radii = operands::radii(x);
    match x.len() {
        12 if name == b"outline".as_slice() => Some(Item::Outline(bounds, radii)),
        14 if name == b"contains".as_slice() => {
            Some(Item::Contains(bounds, radii, operands::point(x, 12)))
        }
        _ => None,
    }
}

// A name with so many floats and no more.
#[tactic(auto, unfolding(crate::specs::Items::of_floats))]
fn of_floats(name: &[u8], x: &[f32]) -> Option<Item>
    ensures { result ≡ of_floats name.now x.now }
{
    match x.len() {
        0 => of_name(name),
        2 => of_two(name, operands::point(x, 0)),
        1 | 3 => None,
        4..=6 => of_four(name, x),
        _ => of_shape(name, x),
    }
}

// Names compared by `==`, here and in `of_words`: a `match` on the name was tried, and its proof did not close for the
// names of six and of seven bytes.
#[tactic(auto, unfolding(crate::specs::Items::has_counts))]
fn has_counts(name: &[u8]) -> bool
    ensures { result ≡ has_counts name.now }
{
    name == b"buffers".as_slice() || name == b"raw".as_slice() || name == b"cursor".as_slice()
}

#[tactic(auto, unfolding(crate::specs::Items::from_floats))]
fn of_operands(name: &[u8], line: &[u8]) -> Option<Item>
    ensures { result ≡ from_floats name.now (operands_of line.now) }
{
    let operands = operands::read(line)?;
    of_floats(name, operands.as_slice())
}

// The item, where the line has a word for it.
fn in_words(line: &[u8], item: Item) -> Option<Item>
    ensures { result ≡ (if has_words line.now then Some item else None) }
{
    if has_words(line) { Some(item) } else { None }
}

#[tactic(auto, unfolding(crate::specs::Items::of_words))]
fn of_words(name: &[u8], line: &[u8]) -> Option<Item>
    ensures { result ≡ of_words name.now line.now }
{
    if has_counts(name) {
        return of_counts(name, line);
    }
    if name == b"record".as_slice() {
        return of_record(line);
    }
    if name == b"verbs".as_slice() {
        return in_words(line, Item::Verbs);
    }
    if name == b"floats".as_slice() {
        return in_words(line, Item::Floats);
    }
    of_operands(name, line)
}

/// What a line asks for: nothing where it has no word.
#[tactic(auto, unfolding(crate::specs::Items::item_of, crate::specs::Items::item_or_bad_line, crate::specs::Items::has_words))]
pub fn item_of(line: &[u8]) -> Result<Option<Item>, BadLine>
    ensures { result ≡ item_of line.now }
{
    let Some((name, rest)) = text::split_word(line) else {
        return Ok(None);
    };
    match of_words(name, rest) {
        Some(item) => Ok(Some(item)),
        None => Err(BadLine),
    }
}
