// A length that is at most what an array has, and the part of the array that is as long.
ghost use Rattle.std.specs.Prelude.{◌≤◌};

use crate::fault::Malformed;

#[derive(Clone, Copy)]
pub struct AtMost<const MOST: usize> {
    pub length: usize,
    ghost fits: { length ≤ MOST },
}

impl<const MOST: usize> TryFrom<usize> for AtMost<MOST> {
    type Error = Malformed;

    fn try_from(length: usize) -> Result<AtMost<MOST>, Malformed> {
        if MOST < length {
            return Err(Malformed);
        }
        Ok(AtMost { length })
    }
}

// The first places of the array.
impl<const MOST: usize> AtMost<MOST> {
    pub fn of<T>(self, array: &[T; MOST]) -> &[T] {
        &array[..self.length]
    }

    pub fn of_mut<T>(self, array: &mut [T; MOST]) -> &mut [T] {
        &mut array[..self.length]
    }
}
