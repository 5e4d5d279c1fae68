//! What a word spells: a number.
ghost use Rattle.std.specs.Prelude.{◌≡◌};
ghost use Rattle.text.specs.Numbers.{digit_of, with_digit, number_of};

// The value of a hexadecimal digit in lower case.
#[tactic(auto, unfolding(crate::specs::Numbers::digit_of))]
fn digit(b: u8) -> Option<u64>
    ensures { result ≡ digit_of b }
{
    match b {
        b'0'..=b'9' => Some(u64::from(b - b'0')),
        b'a'..=b'f' => Some(u64::from(b - b'a') + 10),
        _ => None,
    }
}

// The number n with one digit more behind it.
#[tactic(auto, unfolding(crate::specs::Numbers::with_digit))]
fn with_digit(n: u64, b: u8, base: u64) -> Option<u64>
    ensures { result ≡ with_digit base n b }
{
    let d = digit(b)?;
    if d >= base {
        return None;
    }
    n.checked_mul(base)?.checked_add(d)
}

/// The number that a word's digits spell. `from_str_radix` does not serve: it takes a sign and digits
/// in upper case too.
#[tactic(auto, unfolding(crate::specs::Numbers::number_of))]
pub fn read_number(s: &[u8], base: u64) -> Option<u64>
    ensures { result ≡ number_of base s.now }
{
    if s.is_empty() {
        return None;
    }
    let mut n = 0;
    for &b in s {
        n = with_digit(n, b, base)?;
    }
    Some(n)
}
