// The areas that a line names, and how long those that are lent are kept: four places past what the bench asks
// for, so that a longer one can be lent.
use crate::fault::Malformed;
use std::fmt;

pub const REST: usize = bench::areas::REST + 4;

pub const DRAPE: usize = bench::areas::DRAPE + 4;

pub const PINS: usize = bench::areas::PINS + 4;

// The bench names no length of the work area; matrix does, and is no library of this program.
pub const WORK: usize = 3264 + 4;

// The record's counts and settings are two areas, too.
#[derive(Clone, Copy)]
pub enum Area {
    Counts,
    Settings,
    Rest,
    Drape,
    Pins,
}

impl TryFrom<u64> for Area {
    type Error = Malformed;

    fn try_from(word: u64) -> Result<Area, Malformed> {
        match word {
            0 => Ok(Area::Counts),
            1 => Ok(Area::Settings),
            2 => Ok(Area::Rest),
            3 => Ok(Area::Drape),
            4 => Ok(Area::Pins),
            _ => Err(Malformed),
        }
    }
}

impl fmt::Display for Area {
    fn fmt<W: fmt::Write>(&self, f: &mut fmt::Formatter<W>) -> fmt::Result {
        f.write_str(match self {
            Area::Counts => "counts",
            Area::Settings => "settings",
            Area::Rest => "rest",
            Area::Drape => "drape",
            Area::Pins => "pins",
        })
    }
}
