//! Words, numbers and floats as lines of text hold them, in ASCII: a float is the lower-case
//! hexadecimal digits of its bits, 8 of a single and 16 of a double, or `nan`.

#![tactic(auto)]

mod floats;
mod numbers;
mod output;
mod words;

pub use floats::{FloatWord, Hexadecimal, Spelled, put_float, put_hexadecimal, read_float};
pub use numbers::read_number;
pub use output::{put, put_decimal, write_bytes};
pub use words::{Class, after_word, leading, split_word};
