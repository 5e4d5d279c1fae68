//! Panel files (docs/SPECIFICATION.md, "Panel file"): records of a payload's length, a kind and the payload,
//! little-endian, at most 65,536 bytes. Whatever a file holds, reading it answers its records or the refusal 7.

#![tactic(auto)]

ghost use Rattle.std.specs.Prelude.{◌≡◌, ◌++◌, ◌+◌, ◌<◌, ◌≤◌, length, decimal, Some};
ghost use Rattle.panel_file.specs.Bytes.{u16_at, u32_at, f32_at, point_at};
ghost use Rattle.panel_file.specs.Panel.{no_kind_text, broken_number, broken_text, at_text, kind_number, kind_of, fields_of, payload_of, button_at, head_at, record_at, record_answer, records_of, on_done, counts_of, counts_with, kind_of_record, check_answer};

pub use file::{MOST_BUTTONS, PanelFile, Records};
use geometry::Point;
use std::error::Error;
use std::fmt;
use std::num::f32_from_bits_with_nan;
pub use writing::{put_record, written_records_read_back};

mod file;
mod writing;

// The longest file.
const LIMIT: usize = 65536;

// The bytes in front of a payload: its length and its kind.
const HEADER: usize = 4;

// The kinds' numbers.
const BUTTON: u16 = 1;

const TOUCH: u16 = 2;

/// The number of the refusal of a broken file.
pub const BROKEN: u8 = 7;

/// What a record describes.
#[derive(Clone, Copy, Debug, PartialEq, Eq)]
pub enum Kind {
    Button,
    Touch,
}

/// A number that is no kind's.
#[derive(Clone, Copy, Debug, PartialEq, Eq)]
pub struct UnknownKind {
    pub number: u16,
}

impl TryFrom<u16> for Kind {
    type Error = UnknownKind;

    ghost try_from_gives = { λ number kind. kind ≡ kind_of number };

    #[tactic(auto, unfolding(crate::specs::Panel::kind_of, crate::specs::Panel::kind_number))]
    fn try_from(number: u16) -> Result<Kind, UnknownKind> {
        match number {
            BUTTON => Ok(Kind::Button),
            TOUCH => Ok(Kind::Touch),
            _ => Err(UnknownKind { number }),
        }
    }
}

impl fmt::Display for UnknownKind {
    ghost output = { λ u. Some (no_kind_text ++ decimal u.number) };

    fn fmt<W: fmt::Write>(&self, f: &mut fmt::Formatter<W>) -> fmt::Result {
        write!(f, "no record has the kind {}", self.number)
    }
}

impl Error for UnknownKind {}

/// Bounds and corner radii, as the file has them.
#[derive(Clone, Copy)]
pub struct Button {
    pub min: Point,
    pub max: Point,
    pub top_left: Point,
    pub top_right: Point,
    pub bottom_left: Point,
    pub bottom_right: Point,
}

/// A record's payload.
#[derive(Clone, Copy)]
pub enum Record {
    Button(Button),
    Touch(Point),
}

/// A file that is cut short or too long, or in which a record has an unknown kind or a wrong length: the refusal 7.
#[derive(Clone, Copy, Debug, PartialEq, Eq)]
pub struct Broken {
    /// Where the first broken record starts.
    pub offset: usize,
}

impl Broken {
    /// The refusal's number.
    pub fn number(self) -> u8
        ensures { result ≡ broken_number }
    {
        BROKEN
    }
}

impl fmt::Display for Broken {
    ghost output = { λ b. Some (broken_text ++ at_text ++ decimal b.offset) };

    fn fmt<W: fmt::Write>(&self, f: &mut fmt::Formatter<W>) -> fmt::Result {
        write!(f, "the panel file is broken at {}", self.offset)
    }
}

impl Error for Broken {}

impl Button {
    /// The button that has these fields, in the order of the file.
    pub fn from_points(points: [Point; 6]) -> Button
        ensures { fields_of result ≡ points }
    {
        let [min, max, top_left, top_right, bottom_left, bottom_right] = points;
        Button {
            min,
            max,
            top_left,
            top_right,
            bottom_left,
            bottom_right,
        }
    }

    /// Its fields, in the order of the file.
    pub fn points(self) -> [Point; 6]
        ensures { result ≡ fields_of self }
    {
        [
            self.min,
            self.max,
            self.top_left,
            self.top_right,
            self.bottom_left,
            self.bottom_right,
        ]
    }
}

/// How many records of each kind there are.
#[derive(Clone, Copy, Debug, PartialEq, Eq, Default)]
pub struct Counts {
    pub buttons: usize,
    pub touches: usize,
}

impl Record {
    /// What the record describes.
    #[tactic(auto, unfolding(crate::specs::Panel::kind_of_record))]
    pub fn kind(self) -> Kind
        ensures { result ≡ kind_of_record self }
    {
        match self {
            Record::Button(_) => Kind::Button,
            Record::Touch(_) => Kind::Touch,
        }
    }
}

impl Counts {
    /// With one record more.
    #[tactic(auto, unfolding(crate::specs::Panel::counts_with))]
    pub fn with(self, kind: Kind) -> Counts
        requires buttons { self.buttons < 65536 }
        requires touches { self.touches < 65536 }
        ensures { result ≡ counts_with self kind }
    {
        match kind {
            Kind::Button => Counts {
                buttons: self.buttons + 1,
                ..self
            },
            Kind::Touch => Counts {
                touches: self.touches + 1,
                ..self
            },
        }
    }
}

#[tactic(auto, unfolding(crate::specs::Bytes::u16_at))]
fn u16_at(file: &[u8], at: usize) -> u16
    requires { at + 2 ≤ length file.now }
    ensures { result ≡ u16_at file.now at }
{
    u16::from_le_bytes([file[at], file[at + 1]])
}

fn u32_at(file: &[u8], at: usize) -> u32
    requires { at + 4 ≤ length file.now }
    ensures { result ≡ u32_at file.now at }
{
    u32::from_le_bytes([file[at], file[at + 1], file[at + 2], file[at + 3]])
}

// Bit for bit; every NaN pattern is a NaN.
#[tactic(auto, unfolding(crate::specs::Bytes::f32_at))]
fn f32_at(file: &[u8], at: usize) -> f32
    requires { at + 4 ≤ length file.now }
    ensures { result ≡ f32_at file.now at }
{
    f32_from_bits_with_nan(u32_at(file, at))
}

#[tactic(auto, unfolding(crate::specs::Bytes::point_at))]
fn point_at(file: &[u8], at: usize) -> Point
    requires { at + 8 ≤ length file.now }
    ensures { result ≡ point_at file.now at }
{
    Point {
        x: f32_at(file, at),
        y: f32_at(file, at + 4),
    }
}

impl Kind {
    /// The number that stands for it in a file.
    #[tactic(auto, unfolding(crate::specs::Panel::kind_number))]
    pub fn number(self) -> u16
        ensures { result ≡ kind_number self }
    {
        match self {
            Kind::Button => BUTTON,
            Kind::Touch => TOUCH,
        }
    }

    // The payload's length of each kind.
    #[tactic(auto, unfolding(crate::specs::Panel::payload_of))]
    fn payload(self) -> usize
        ensures { result ≡ payload_of self }
    {
        match self {
            Kind::Button => 48,
            Kind::Touch => 8,
        }
    }
}

#[tactic(auto, unfolding(crate::specs::Panel::payload_of, crate::specs::Panel::button_at))]
fn button_at(file: &[u8], at: usize) -> Button
    requires { at + payload_of Kind.Button ≤ length file.now }
    ensures { result ≡ button_at file.now at }
{
    Button::from_points([
        point_at(file, at),
        point_at(file, at + 8),
        point_at(file, at + 16),
        point_at(file, at + 24),
        point_at(file, at + 32),
        point_at(file, at + 40),
    ])
}

// The kind of the record at an offset, once its header and its whole payload are there; none at the end of the file.
#[tactic(auto, unfolding(crate::specs::Panel::head_at, crate::specs::Panel::whole_of))]
fn head_at(file: &[u8], at: usize) -> Result<Option<Kind>, Broken>
    ensures { result ≡ head_at file.now at }
{
    let n = file.len();
    if LIMIT < n {
        return Err(Broken { offset: 0 });
    }
    if n <= at {
        return Ok(None);
    }
    let left = n - at;
    if left < HEADER {
        return Err(Broken { offset: at });
    }
    let Ok(kind) = Kind::try_from(u16_at(file, at + 2)) else {
        return Err(Broken { offset: at });
    };
    let len = kind.payload();
    if usize::from(u16_at(file, at)) != len {
        return Err(Broken { offset: at });
    }
    if HEADER + len <= left {
        Ok(Some(kind))
    } else {
        Err(Broken { offset: at })
    }
}

/// The record at an offset of the file and the offset past it; at the file's length and past it, none.
#[tactic(auto, unfolding(crate::specs::Panel::record_answer, crate::specs::Panel::record_at, crate::specs::Panel::entry_of, crate::specs::Panel::content_at, crate::specs::Panel::payload_of))]
pub fn record_at(file: &[u8], at: usize) -> Result<Option<(Record, usize)>, Broken>
    ensures { record_answer result ≡ record_at file.now at }
{
    let Some(kind) = head_at(file, at)? else {
        return Ok(None);
    };
    let from = at + HEADER;
    let next = from + kind.payload();
    match kind {
        Kind::Button => Ok(Some((Record::Button(button_at(file, from)), next))),
        Kind::Touch => Ok(Some((Record::Touch(point_at(file, from)), next))),
    }
}

// How many records of each kind the whole file holds, if it is good.
fn check(file: &[u8]) -> Result<Counts, Broken>
    ensures { check_answer result ≡ on_done counts_of (records_of file.now) }
{
    let mut at = 0;
    let mut counts = Counts::default();
    while let Some(kind) = head_at(file, at)? {
        counts = counts.with(kind);
        at = at + HEADER + kind.payload();
    }
    Ok(counts)
}
