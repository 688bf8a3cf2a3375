// What a look hands back, as it is stored.
use crate::fault::Malformed;
use crate::words::Words;
use bench::look::Area;

// One number or more, and where they stand.
#[derive(Clone, Copy)]
pub struct StoredLook<'a> {
    pub area: Area,
    pub place: usize,
    pub numbers: &'a [u64],
}

// The area of a word: every word but that of rest is taken for the drape's. No `From`: both types are other
// crates'.
fn area(word: u64) -> Area {
    match word {
        2 => Area::Rest,
        _ => Area::Drape,
    }
}

impl<'a> StoredLook<'a> {
    // None where the look is refused, which the empty list says, whatever area and place stand before it.
    pub fn read(words: &mut Words<'a>) -> Result<Option<StoredLook<'a>>, Malformed> {
        let stored = StoredLook {
            area: area(words.word()?),
            place: words.value()?,
            numbers: words.list()?,
        };
        Ok(Some(stored).filter(|stored| !stored.numbers.is_empty()))
    }
}
