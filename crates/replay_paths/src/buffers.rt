//! A buffer of the program, and how much of it is lent.
use items::BadLine;
use operands::Element;

/// An array, whose first elements are lent.
#[derive(Clone, Copy)]
pub struct Buffer<T, const N: usize> {
    all: [T; N],
    held: usize,
}

impl<T: Copy, const N: usize> Buffer<T, N> {
    /// Nothing of it is lent.
    pub fn new(zero: T) -> Buffer<T, N> {
        Buffer {
            all: [zero; N],
            held: 0,
        }
    }

    /// So much of it is lent, with a zero everywhere. What is past that stays as it was, and is never seen: `grow` writes
    /// over it. So a new list pays for its own room alone.
    pub fn lend(&mut self, zero: T, held: usize) {
        self.held = held;
        if let Some(lent) = self.lent_mut() {
            for x in lent.iter_mut() {
                *x = zero;
            }
        }
    }

    /// Whether so much of it can be lent.
    pub fn has_room(&self, n: usize) -> bool {
        n <= N
    }

    /// What is lent, to be read.
    pub fn lent(&self) -> Option<&[T]> {
        self.all.get(..self.held)
    }

    /// What is lent, to be written.
    pub fn lent_mut(&mut self) -> Option<&mut [T]> {
        let held = self.held;
        let array = &mut self.all;
        let all = &mut array[..];
        all.get_mut(..held)
    }
}

impl<T: Element, const N: usize> Buffer<T, N> {
    /// Puts the words of a line behind what is held.
    pub fn grow(&mut self, line: &[u8]) -> Result<(), BadLine> {
        self.held = operands::push(line, &mut self.all, self.held).ok_or(BadLine)?;
        Ok(())
    }
}
