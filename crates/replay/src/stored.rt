// What a word stands for in a list of its kind: a number by its bits, a byte, or a count.
ghost use Rattle.std.specs.Prelude.{◌<◌, length, IfSome};

use std::num::{f64_from_bits_with_nan, f64_to_bits_with_nan};

pub trait Stored: Copy {
    // What the word stands for.
    fn of(word: u64) -> Self;

    // Whether the word stands for it.
    fn is(self, word: u64) -> bool;
}

// A NaN is a NaN.
impl Stored for f64 {
    fn of(word: u64) -> f64 {
        f64_from_bits_with_nan(word)
    }

    fn is(self, word: u64) -> bool {
        (self.is_nan() & f64::of(word).is_nan()) | (f64_to_bits_with_nan(self) == word)
    }
}

// What a word that is no byte is taken for. It stands for none; an Option would leave the area without a byte.
const NO_BYTE: u8 = u8::MAX;

impl Stored for u8 {
    fn of(word: u64) -> u8 {
        u8::try_from(word).unwrap_or(NO_BYTE)
    }

    fn is(self, word: u64) -> bool {
        u64::from(self) == word
    }
}

// By `as`: between u64 and usize there is no `From`, and the check proves that nothing is lost.
impl Stored for usize {
    fn of(word: u64) -> usize {
        word as usize
    }

    fn is(self, word: u64) -> bool {
        self as u64 == word
    }
}

// The first place whose word stands for something else.
pub fn first_other<T: Stored>(places: &[T], words: &[u64]) -> Option<usize>
    ensures { IfSome result (λ place. place < length places.now) }
{
    places
        .iter()
        .zip(words)
        .position(|(place, word)| !place.is(*word))
}
