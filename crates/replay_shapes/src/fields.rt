//! The fields of a shape in the order of their declarations, as words of a line.
use octant::Octant;
use quadrant::Quadrant;
use shape::RoundSuperellipse;
use std::fmt;

fn octant_floats(o: Octant) -> [f32; 9] {
    let Octant {
        offset,
        se_a,
        se_n,
        circle_start,
        circle_center,
        circle_max_angle,
    } = o;
    [
        offset.x,
        offset.y,
        se_a,
        se_n,
        circle_start.x,
        circle_start.y,
        circle_center.x,
        circle_center.y,
        circle_max_angle,
    ]
}

// A line's words, put together before a formatter gets them: in pieces they cost a quarter more.
#[derive(Drop)]
struct Words {
    bytes: [u8; 1024],
    len: usize,
}

impl Words {
    fn put_text(&mut self, text: &[u8]) {
        let len = self.len;
        self.len = text::put(&mut self.bytes, len, text);
    }

    // The words of some floats, each with a blank behind it.
    fn put_floats(&mut self, floats: &[f32]) {
        for x in floats {
            let len = self.len;
            self.len = text::put_float(&mut self.bytes, len, *x);
            self.put_text(b" ");
        }
    }

    fn line(&self) -> Option<&[u8]> {
        self.bytes.get(..self.len)
    }

    fn put_quadrant(&mut self, q: Quadrant) {
        self.put_floats(&[q.offset.x, q.offset.y, q.signed_scale.x, q.signed_scale.y]);
        self.put_floats(&octant_floats(q.top));
        self.put_floats(&octant_floats(q.right));
    }
}

/// A shape that is written as its fields.
#[derive(Clone, Copy)]
pub struct Fields(pub RoundSuperellipse);

impl fmt::Display for Fields {
    fn fmt<W: fmt::Write>(&self, f: &mut fmt::Formatter<W>) -> fmt::Result {
        let Fields(s) = *self;
        let mut words = Words {
            bytes: [0; 1024],
            len: 0,
        };
        for q in [s.top_right, s.bottom_right, s.bottom_left, s.top_left] {
            words.put_quadrant(q);
        }
        words.put_text(if s.all_corners_same { b"1" } else { b"0" });
        match words.line() {
            Some(line) => text::write_bytes(f, line),
            None => Err(fmt::Error),
        }
    }
}
