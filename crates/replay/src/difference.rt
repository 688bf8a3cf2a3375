// What differs after a call.
use crate::area::Area;
use std::fmt;

#[derive(Clone, Copy)]
pub enum Difference {
    Answer,
    // This place of record or area.
    Place(Area, usize),
    // This place of the work area, which was to stay.
    Work(usize),
}

impl fmt::Display for Difference {
    fn fmt<W: fmt::Write>(&self, f: &mut fmt::Formatter<W>) -> fmt::Result {
        match self {
            Difference::Answer => write!(f, "answer"),
            Difference::Place(area, place) => write!(f, "{area} {place}"),
            Difference::Work(place) => write!(f, "work {place}"),
        }
    }
}
