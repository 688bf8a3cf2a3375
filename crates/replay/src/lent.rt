// How much of each area a call is lent.
use crate::area::{DRAPE, PINS, REST, WORK};
use crate::at_most::AtMost;
use crate::fault::Malformed;
use crate::words::Words;

// No more than there is.
#[derive(Clone, Copy)]
pub struct Lent {
    pub rest: AtMost<REST>,
    pub drape: AtMost<DRAPE>,
    pub pins: AtMost<PINS>,
    pub work: AtMost<WORK>,
}

impl Lent {
    pub fn read(words: &mut Words<'_>) -> Result<Lent, Malformed> {
        Ok(Lent {
            rest: at_most(words)?,
            drape: at_most(words)?,
            pins: at_most(words)?,
            work: at_most(words)?,
        })
    }
}

// The next word as a length.
fn at_most<const MOST: usize>(words: &mut Words<'_>) -> Result<AtMost<MOST>, Malformed> {
    AtMost::try_from(words.value::<usize>()?)
}
