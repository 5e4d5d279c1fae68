//! The words of a line, and where a line ends.
ghost use Rattle.std.specs.Prelude.{◌≡◌, ◌<◌, ◌≤◌, not, length, IfNone, IfSome};
ghost use Rattle.std.specs.List.{position};
ghost use Rattle.text.specs.Words.{belongs_to, leading_of, after_blanks, first_word, after_word};

/// What a byte of a line may belong to.
#[derive(Clone, Copy)]
pub enum Class {
    Blank,
    Word,
    Line,
}

impl Class {
    #[tactic(auto, unfolding(crate::specs::Words::belongs_to))]
    fn takes(self, b: u8) -> bool
        ensures { result ≡ belongs_to self b }
    {
        match self {
            Class::Blank => b == b' ',
            Class::Word => b != b' ' && b != b'#',
            Class::Line => b != b'\n',
        }
    }
}

// The place of the first byte that does not belong to the class.
fn end_of(s: &[u8], class: Class) -> Option<usize>
    ensures { result ≡ position (λ b. not (belongs_to class b)) s.now }
{
    s.iter().position(|&b| !class.takes(b))
}

/// How many bytes in front belong to the class.
pub fn leading(s: &[u8], class: Class) -> usize
    ensures value { result ≡ leading_of (belongs_to class) s.now }
    ensures upper_bound { result ≤ length s.now }
{
    end_of(s, class).unwrap_or(s.len())
}

#[tactic(auto, unfolding(crate::specs::Words::after_blanks))]
fn after_blanks(s: &[u8]) -> &[u8]
    ensures { result.now ≡ after_blanks s.now }
{
    &s[leading(s, Class::Blank)..]
}

/// The first word of a line, and what follows it; none where the line has no word.
#[tactic(auto, unfolding(crate::specs::Words::first_word, crate::specs::Words::after_word))]
pub fn split_word(s: &[u8]) -> Option<(&[u8], &[u8])>
    ensures none { IfNone result (length (first_word s.now) ≡ 0) }
    ensures word { IfSome result (λ p. p.0.now ≡ first_word s.now) }
    ensures rest { IfSome result (λ p. p.1.now ≡ after_word s.now) }
    ensures some { IfSome result (λ p. length (first_word s.now) ≡ 0 → ⊥) }
    ensures shorter { IfSome result (λ p. length p.1.now < length s.now) }
{
    let t = after_blanks(s);
    let n = leading(t, Class::Word);
    if n == 0 {
        return None;
    }
    Some(t.split_at(n))
}

/// What follows the first word.
#[tactic(auto, unfolding(crate::specs::Words::after_word))]
pub fn after_word(s: &[u8]) -> &[u8]
    ensures { result.now ≡ after_word s.now }
{
    let t = after_blanks(s);
    &t[leading(t, Class::Word)..]
}
