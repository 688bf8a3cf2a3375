// The words of a line, read from the first on.
use crate::fault::Malformed;
use crate::stored::Stored;

// Those that are left.
#[derive(Drop)]
pub struct Words<'a> {
    left: &'a [u64],
}

impl<'a> Words<'a> {
    pub fn new(line: &'a [u64]) -> Words<'a> {
        Words { left: line }
    }

    pub fn word(&mut self) -> Result<u64, Malformed> {
        let (word, left) = self.left.split_first().ok_or(Malformed)?;
        self.left = left;
        Ok(*word)
    }

    // What the next word stands for.
    pub fn value<T: Stored>(&mut self) -> Result<T, Malformed> {
        Ok(T::of(self.word()?))
    }

    pub fn take<const N: usize>(&mut self) -> Result<&'a [u64; N], Malformed> {
        let (words, left) = self.left.split_first_chunk().ok_or(Malformed)?;
        self.left = left;
        Ok(words)
    }

    // A list, which begins with its length.
    pub fn list(&mut self) -> Result<&'a [u64], Malformed> {
        let n = self.value()?;
        let (words, left) = self.left.split_at_checked(n).ok_or(Malformed)?;
        self.left = left;
        Ok(words)
    }

    pub fn end(&self) -> Result<(), Malformed> {
        if self.left.is_empty() {
            Ok(())
        } else {
            Err(Malformed)
        }
    }
}
