//! The floats that the words of a line spell, and the bounds and radii that twelve of them are.

#![tactic(auto)]

ghost use Rattle.std.specs.Prelude.{◌≡◌, get_or};
ghost use Rattle.std.specs.Option.{option_map};
ghost use Rattle.std.specs.Float.{nan};
ghost use Rattle.operands.specs.Operands.{with_next, operands_of, point_at, bounds_of, radii_of};

mod appending;

pub use appending::{Element, push};
use arrayvec::ArrayVec;
use geometry::Point;
use shape::{Bounds, CornerRadii};

/// Up to 14 singles.
pub type Operands = ArrayVec<f32, 14>;

#[tactic(auto, unfolding(crate::specs::Operands::with_next, crate::specs::Operands::with_single))]
fn push_next(x: &mut Operands, word: &[u8]) -> Option<()>
    ensures { with_next (Some x.old.items) word.now ≡ option_map (λ _. x.new.items) result }
{
    let v = text::read_float(word)?;
    x.try_push(v).ok()
}

/// The operands that a line spells: none where a word is no single, or there are more than 14.
pub fn read(line: &[u8]) -> Option<Operands>
    ensures { option_map (λ x. x.items) result ≡ operands_of line.now }
{
    let mut x = ArrayVec::new();
    let mut rest = line;
    // No iterator of words: the definition is a recursion over them (`over_words`), so the invariant says what is left.
    while let Some((word, tail)) = text::split_word(rest) {
        push_next(&mut x, word)?;
        rest = tail;
    }
    Some(x)
}

/// The i-th operand, or a NaN where there are not so many.
pub fn at(x: &[f32], i: usize) -> f32
    ensures { result ≡ get_or x.now i nan }
{
    x.get(i).copied().unwrap_or(f32::NAN)
}

/// The point of operands i and i + 1.
pub fn point(x: &[f32], i: u8) -> Point
    ensures { result ≡ point_at x.now i }
{
    Point {
        x: at(x, usize::from(i)),
        y: at(x, usize::from(i) + 1),
    }
}

/// The bounds that the first four operands are.
#[tactic(auto, unfolding(crate::specs::Operands::bounds_of))]
pub fn bounds(x: &[f32]) -> Bounds
    ensures { result ≡ bounds_of x.now }
{
    Bounds {
        min: point(x, 0),
        max: point(x, 2),
    }
}

/// The corner radii that the eight operands behind them are.
#[tactic(auto, unfolding(crate::specs::Operands::radii_of))]
pub fn radii(x: &[f32]) -> CornerRadii
    ensures { result ≡ radii_of x.now }
{
    CornerRadii {
        top_left: point(x, 4),
        top_right: point(x, 6),
        bottom_left: point(x, 8),
        bottom_right: point(x, 10),
    }
}
