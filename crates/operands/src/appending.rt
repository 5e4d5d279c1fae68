//! The floats and the bytes that a line spells, behind those that a buffer holds. The answer is how many are
//! held then: none where a word spells none or finds no room.
ghost use Rattle.std.specs.Prelude.{◌≡◌, ℕ, List, length, Some, None};
ghost use Rattle.operands.specs.Operands.{over_words};
ghost use Rattle.operands.specs.Appending.{Filled, filled, overfull, with_float, with_byte, with_word, no_float_more, no_byte_more};

/// What a word of a line puts into a buffer.
pub trait Element: Copy {
    /// A buffer with what a word puts into it.
    ghost with_word: { Filled Self → List ℕ → Filled Self };

    /// Puts a word's elements behind those that are held.
    fn push_word(word: &[u8], buffer: &mut [Self], held: usize) -> Option<usize>
        ensures { filled result buffer.new ≡ with_word (filled (Some held) buffer.old) word.now };

    /// Nothing goes in behind what did not go in.
    ghost stays: { (l : List Self) (word : List ℕ) →
        with_word (filled None l) word ≡ filled None l };
}

impl Element for f32 {
    ghost with_word = { with_float };

    ghost stays = { no_float_more };

    #[tactic(auto, unfolding(crate::specs::Appending::with_float, crate::specs::Appending::with_single, crate::specs::Appending::with_one_at))]
    fn push_word(word: &[u8], floats: &mut [f32], held: usize) -> Option<usize> {
        let x = text::read_float(word)?;
        if held >= floats.len() {
            return None;
        }
        floats[held] = x;
        Some(held + 1)
    }
}

// The byte that two digits spell.
#[tactic(auto, unfolding(crate::specs::Appending::with_byte, crate::specs::Appending::with_number, crate::specs::Appending::with_one_at))]
fn push_byte(digits: &[u8], verbs: &mut [u8], held: usize) -> Option<usize>
    ensures { filled result verbs.new ≡ with_byte (filled (Some held) verbs.old) digits.now }
{
    let b = text::read_number(digits, 16)?;
    if held >= verbs.len() {
        return None;
    }
    // two digits spell no more
    verbs[held] = (b % 256) as u8;
    Some(held + 1)
}

// Two digits a byte.
impl Element for u8 {
    ghost with_word = { with_word };

    ghost stays = { no_byte_more };

    fn push_word(word: &[u8], verbs: &mut [u8], held: usize) -> Option<usize> {
        let mut held = held;
        let mut rest = word;
        while let Some((digits, tail)) = rest.split_at_checked(2) {
            held = push_byte(digits, verbs, held)?;
            rest = tail;
        }
        if !rest.is_empty() {
            return None;
        }
        Some(held)
    }
}

/// Puts the elements of all words of a line behind those that are held.
pub fn push<T: Element>(line: &[u8], buffer: &mut [T], held: usize) -> Option<usize>
    ensures { filled result buffer.new
        ≡ over_words T.with_word (length line.now) (filled (Some held) buffer.old) line.now }
{
    let mut held = held;
    let mut rest = line;
    // No iterator of words: the definition is a recursion over them (`over_words`), so the invariant says what is left.
    while let Some((word, tail)) = text::split_word(rest) {
        held = T::push_word(word, buffer, held)?;
        rest = tail;
    }
    Some(held)
}
