//! Draws lists of triangles twice, each way on buffers of its own: by the calls that take the record by
//! value, then by the in-place calls. It writes the answers and the streams as the oracle does for
//! the list in the file stdin; of an accepted in-place call there is nothing to write.

#![tactic(auto)]

mod lines;

use calls::BuildError;
use geometry::Point;
use std::io;
use stream::Builder;

// Stays an enum: with a closure in its place each function down to the drawing would require that it may be called.
#[derive(Clone, Copy)]
enum Form {
    ByValue,
    InPlace,
}

// A record with its buffers.
#[derive(Drop)]
struct Path<'a> {
    builder: Builder,
    verbs: &'a mut [u8],
    points: &'a mut [f32],
}

impl Path<'_> {
    // Keeps the record of an answer, and writes the answer.
    fn keep(&mut self, rt: &impl Print, a: Result<Builder, BuildError>) -> io::Result<()> {
        match a {
            Ok(b) => {
                self.builder = b;
                lines::write_counts(rt, b)
            }
            Err(e) => {
                self.builder = e.builder();
                lines::write_number(rt, e.number())
            }
        }
    }

    fn line_to(&mut self, rt: &impl Print, p: Point) -> io::Result<()> {
        let a = calls::line_to(self.builder, self.verbs, self.points, p);
        self.keep(rt, a)
    }

    fn by_value(&mut self, rt: &impl Print, [p, q, r]: [Point; 3]) -> io::Result<()> {
        let moved = calls::move_to(self.builder, self.verbs, self.points, p);
        self.keep(rt, moved)?;
        self.line_to(rt, q)?;
        self.line_to(rt, r)?;
        let closed = calls::close(self.builder, self.verbs, self.points);
        self.keep(rt, closed)
    }

    fn in_place(&mut self, rt: &impl Print, [p, q, r]: [Point; 3]) -> io::Result<()> {
        let d = builder_in_place::triangle(self.builder, self.verbs, self.points, p, q, r);
        self.builder = d.builder;
        for a in [d.moved, d.second, d.third, d.closed] {
            if let Err(e) = a {
                lines::write_number(rt, e.number())?;
            }
        }
        Ok(())
    }

    // Four triangles, each to the right of the one before.
    fn draw(&mut self, rt: &impl Print, form: Form) -> io::Result<()> {
        let mut x = -1.75;
        for _ in 0..4u8 {
            let corners = [
                Point { x, y: 0.0 },
                Point { x: x + 1.0, y: 0.5 },
                Point { x, y: -1.25 },
            ];
            match form {
                Form::ByValue => self.by_value(rt, corners)?,
                Form::InPlace => self.in_place(rt, corners)?,
            }
            x += 1.5;
        }
        Ok(())
    }
}

// One list of calls, from this record, in buffers of v verbs and f floats.
fn list(rt: &impl Print, form: Form, b: Builder, v: usize, f: usize) -> io::Result<()> {
    let mut verbs = [0u8; 16];
    let mut points = [0.0f32; 32];
    let Some(verbs) = verbs.get_mut(..v) else {
        return Ok(());
    };
    let Some(points) = points.get_mut(..f) else {
        return Ok(());
    };
    let mut path = Path {
        builder: b,
        verbs,
        points,
    };
    path.draw(rt, form)?;
    let Path {
        builder,
        verbs,
        points,
    } = path;
    replies::write_stream(rt, builder, verbs, points, true)
}

// Enough room, too little, none, and a record that does not suit its buffers.
fn lists(rt: &impl Print, form: Form) -> io::Result<()> {
    list(rt, form, stream::new(), 16, 32)?;
    list(rt, form, stream::new(), 6, 9)?;
    list(rt, form, stream::new(), 0, 0)?;
    let unsuited = Builder {
        verbs: 9,
        points: 9,
        start: Point { x: 0.5, y: 0.25 },
        pen: Point { x: 1.5, y: 2.5 },
    };
    list(rt, form, unsuited, 8, 16)
}

fn main(rt: HostRuntime) -> io::Result<()> {
    lists(&rt, Form::ByValue)?;
    lists(&rt, Form::InPlace)
}
