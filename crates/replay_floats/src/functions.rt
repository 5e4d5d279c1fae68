//! The operations on floats and points and the elementary functions, under the names that a vector uses, by the number
//! of their operands.
use geometry::Point;
use std::fmt;
use text::Spelled;

/// What a function answers.
#[derive(Drop)]
pub enum Answer {
    Flag(bool),
    Single(f32),
    Double(f64),
    Pair(f32, f32),
}

impl fmt::Display for Answer {
    fn fmt<W: fmt::Write>(&self, f: &mut fmt::Formatter<W>) -> fmt::Result {
        match self {
            Answer::Flag(yes) => f.write_str(if *yes { "1" } else { "0" }),
            Answer::Single(x) => write!(f, "{}", Spelled(*x)),
            Answer::Double(x) => write!(f, "{}", Spelled(*x)),
            Answer::Pair(x, y) => write!(f, "{} {}", Spelled(*x), Spelled(*y)),
        }
    }
}

impl From<Point> for Answer {
    fn from(p: Point) -> Answer {
        Answer::Pair(p.x, p.y)
    }
}

fn of_one(name: &[u8], x: f32) -> Option<Answer> {
    Some(match name {
        b"widen" => Answer::Double(ieee::widen(x)),
        b"sqrt" => Answer::Single(ieee::sqrt(x)),
        b"is_finite" => Answer::Flag(ieee::is_finite(x)),
        b"abs" => Answer::Single(ieee::abs(x)),
        b"tan" => Answer::Single(trigonometry::tan(x)),
        b"sin_cos" => {
            let r = trigonometry::sin_cos(x);
            Answer::Pair(r.sin, r.cos)
        }
        _ => return None,
    })
}

fn of_point(name: &[u8], p: Point) -> Option<Answer> {
    Some(match name {
        b"point_neg" => Answer::from(-p),
        b"point_abs" => Answer::from(p.abs()),
        b"point_normalize" => Answer::from(p.normalize()),
        b"point_length_squared" => Answer::Single(p.length_squared()),
        b"point_length" => Answer::Single(p.length()),
        b"point_is_finite" => Answer::Flag(p.is_finite()),
        _ => return None,
    })
}

fn of_two(name: &[u8], a: f32, b: f32) -> Option<Answer> {
    Some(match name {
        b"min" => Answer::Single(ieee::min(a, b)),
        b"max" => Answer::Single(ieee::max(a, b)),
        b"pow" => Answer::Single(exponential::pow(a, b)),
        b"atan2" => Answer::Single(trigonometry::atan2(a, b)),
        _ => return of_point(name, Point { x: a, y: b }),
    })
}

fn of_three(name: &[u8], p: Point, c: f32) -> Option<Answer> {
    Some(match name {
        b"clamp" => Answer::Single(ieee::clamp(p.x, p.y, c)),
        b"point_scale" => Answer::from(p * c),
        b"point_shrink" => Answer::from(p / c),
        _ => return None,
    })
}

fn of_points(name: &[u8], p: Point, q: Point) -> Option<Answer> {
    Some(match name {
        b"point_add" => Answer::from(p + q),
        b"point_sub" => Answer::from(p - q),
        b"point_distance_squared" => Answer::Single(p.distance_squared(q)),
        b"point_mul" => Answer::from(p * q),
        b"point_div" => Answer::from(p / q),
        _ => return None,
    })
}

// The double that a line's only word spells.
fn only_double(line: &[u8]) -> Option<f64> {
    let (word, rest) = text::split_word(line)?;
    if text::split_word(rest).is_some() {
        return None;
    }
    text::read_float(word)
}

fn of_singles(name: &[u8], line: &[u8]) -> Option<Answer> {
    let operands = operands::read(line)?;
    match operands.as_slice() {
        [x] => of_one(name, *x),
        [a, b] => of_two(name, *a, *b),
        [a, b, c] => of_three(name, Point { x: *a, y: *b }, *c),
        [a, b, c, d] => of_points(name, Point { x: *a, y: *b }, Point { x: *c, y: *d }),
        _ => None,
    }
}

/// The answer for a function's name and the rest of its line; none where that is no vector.
pub fn answer_to(name: &[u8], line: &[u8]) -> Option<Answer> {
    match name {
        b"narrow" => Some(Answer::Single(ieee::narrow(only_double(line)?))),
        b"abs_f64" => Some(Answer::Double(ieee::abs_f64(only_double(line)?))),
        _ => of_singles(name, line),
    }
}
