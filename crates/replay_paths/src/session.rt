//! The current list or raw stream, and what each line does to it.
use crate::answers;
use crate::buffers::Buffer;
use geometry::Point;
use input::lines::TooLong;
use items::{BadLine, Item};
use outline::BuildingCall;
use reader::Cursor;
use replies::Reply;
use shape::{RoundSuperellipse, ShapeError};
use std::io;
use stream::Builder;

// What is current, with its record. The buffers of a raw stream grow until it is asked something.
#[derive(Clone, Copy)]
enum Current {
    Nothing,
    List(Builder),
    Raw(Builder),
    Asked(Builder),
}

// Why a line is not answered.
#[derive(Drop)]
enum Refusal {
    BadLine,
    Io(io::Error),
}

impl From<BadLine> for Refusal {
    fn from(_: BadLine) -> Refusal {
        Refusal::BadLine
    }
}

impl From<io::Error> for Refusal {
    fn from(e: io::Error) -> Refusal {
        Refusal::Io(e)
    }
}

/// What is current, the buffers, and the number of the line.
#[derive(Clone, Copy)]
pub struct Session {
    current: Current,
    verbs: Buffer<u8, 4096>,
    floats: Buffer<f32, 16384>,
    line: u64,
}

impl Session {
    /// Nothing is current.
    pub fn new() -> Session {
        Session {
            current: Current::Nothing,
            verbs: Buffer::new(0),
            floats: Buffer::new(0.0),
            line: 0,
        }
    }

    // What is lent of both buffers.
    fn lent(&self) -> Option<(&[u8], &[f32])> {
        Some((self.verbs.lent()?, self.floats.lent()?))
    }

    /// The end of the current list or raw stream: its segments and, for a list, its record.
    pub fn end_stream(&self, rt: &impl Print) -> io::Result<()> {
        let (b, is_list) = match self.current {
            Current::Nothing => return Ok(()),
            Current::List(b) => (b, true),
            Current::Raw(b) | Current::Asked(b) => (b, false),
        };
        let Some((verbs, floats)) = self.lent() else {
            return Ok(());
        };
        replies::write_stream(rt, b, verbs, floats, is_list)
    }

    fn begin_list(&mut self, rt: &impl Print, v: usize, f: usize) -> Result<(), Refusal> {
        if !self.verbs.has_room(v) || !self.floats.has_room(f) {
            return Err(Refusal::BadLine);
        }
        self.end_stream(rt)?;
        self.verbs.lend(0, v);
        self.floats.lend(0.0, f);
        self.current = Current::List(stream::new());
        Ok(())
    }

    fn begin_raw(&mut self, rt: &impl Print, v: usize, p: usize) -> Result<(), Refusal> {
        self.end_stream(rt)?;
        self.verbs.lend(0, 0);
        self.floats.lend(0.0, 0);
        self.current = Current::Raw(Builder {
            verbs: v,
            points: p,
            start: Point { x: 0.0, y: 0.0 },
            pen: Point { x: 0.0, y: 0.0 },
        });
        Ok(())
    }

    // The record of the current list.
    fn list(&self) -> Result<Builder, BadLine> {
        match self.current {
            Current::List(b) => Ok(b),
            _ => Err(BadLine),
        }
    }

    fn raw(&self) -> Result<(), BadLine> {
        match self.current {
            Current::Raw(_) => Ok(()),
            _ => Err(BadLine),
        }
    }

    // One call of the library, whichever it is.
    fn build(&mut self, rt: &impl Print, call: BuildingCall) -> Result<(), Refusal> {
        let b = self.list()?;
        let Some(verbs) = self.verbs.lent_mut() else {
            return Ok(());
        };
        let Some(floats) = self.floats.lent_mut() else {
            return Ok(());
        };
        let a = building::apply(b, verbs, floats, call);
        self.current = Current::List(answers::write_built(rt, call, a)?);
        Ok(())
    }

    // The outline of a shape, or why there is no shape.
    fn build_outline(
        &mut self,
        rt: &impl Print,
        made: Result<RoundSuperellipse, ShapeError>,
    ) -> Result<(), Refusal> {
        match made {
            Ok(shape) => self.build(rt, BuildingCall::AddTo(shape)),
            Err(error) => {
                self.list()?;
                answers::write_no_shape(rt, error)?;
                Ok(())
            }
        }
    }

    fn set_record(&mut self, b: Builder) -> Result<(), Refusal> {
        self.list()?;
        self.current = Current::List(b);
        Ok(())
    }

    fn grow_verbs(&mut self, line: &[u8]) -> Result<(), Refusal> {
        self.raw()?;
        self.verbs.grow(line)?;
        Ok(())
    }

    fn grow_floats(&mut self, line: &[u8]) -> Result<(), Refusal> {
        self.raw()?;
        self.floats.grow(line)?;
        Ok(())
    }

    // The record of what is asked. A raw stream that is asked something grows no more.
    fn asked(&mut self) -> Result<Builder, BadLine> {
        match self.current {
            Current::Nothing => Err(BadLine),
            Current::List(b) => Ok(b),
            Current::Raw(b) | Current::Asked(b) => {
                self.current = Current::Asked(b);
                Ok(b)
            }
        }
    }

    fn read_at(&mut self, rt: &impl Print, c: Cursor) -> Result<(), Refusal> {
        let b = self.asked()?;
        if let Some((verbs, floats)) = self.lent() {
            answers::write_reading(rt, reader::read(b, verbs, floats, c))?;
        }
        Ok(())
    }

    fn read_box(&mut self, rt: &impl Print) -> Result<(), Refusal> {
        let b = self.asked()?;
        if let Some((verbs, floats)) = self.lent() {
            answers::write_box(rt, reader::bounds(b, verbs, floats))?;
        }
        Ok(())
    }

    fn take_item(&mut self, rt: &impl Print, line: &[u8]) -> Result<(), Refusal> {
        let Some(item) = items::item_of(line)? else {
            return Ok(());
        };
        match item {
            Item::Buffers(v, f) => self.begin_list(rt, v, f),
            Item::Build(call) => self.build(rt, call),
            Item::Outline(bounds, radii) => {
                self.build_outline(rt, RoundSuperellipse::new(bounds, radii))
            }
            Item::Record(b) => self.set_record(b),
            Item::Raw(v, p) => self.begin_raw(rt, v, p),
            Item::Verbs => self.grow_verbs(text::after_word(line)),
            Item::Floats => self.grow_floats(text::after_word(line)),
            Item::At(c) => self.read_at(rt, c),
            Item::Box => self.read_box(rt),
            Item::Contains(bounds, radii, p) => {
                answers::write_contains(rt, RoundSuperellipse::new(bounds, radii), p)?;
                Ok(())
            }
        }
    }

    /// One line; false at a bad one, which ends it all: nothing is current then.
    pub fn take_line(&mut self, rt: &impl Print, line: Result<&[u8], TooLong>) -> io::Result<bool> {
        self.line = self.line.saturating_add(1);
        let taken = match line {
            Ok(line) => self.take_item(rt, line),
            Err(_) => Err(Refusal::BadLine),
        };
        match taken {
            Ok(()) => Ok(true),
            Err(Refusal::BadLine) => {
                answers::write(rt, Reply::BadLine(self.line))?;
                self.current = Current::Nothing;
                Ok(false)
            }
            Err(Refusal::Io(e)) => Err(e),
        }
    }
}
