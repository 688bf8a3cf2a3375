// The record and the areas as words, as the reference left them.
ghost use Rattle.std.specs.Prelude.{◌≡◌, length};

use crate::area::{Area, DRAPE, PINS, REST};
use crate::fault::Malformed;
use crate::settings;
use crate::stored::Stored;
use crate::words::Words;
use bench::areas::SEATS;
use bench::seats::Record;
use std::array;

const SETTINGS: usize = SEATS * settings::NUMBERS;

#[derive(Drop)]
pub struct Expected {
    pub counts: [u64; SEATS],
    settings: [u64; SETTINGS],
    pub rest: [u64; REST],
    pub drape: [u64; DRAPE],
    pub pins: [u64; PINS],
}

// Those of a new bench.
impl Default for Expected {
    fn default() -> Expected {
        Expected {
            counts: [0; SEATS],
            settings: [0; SETTINGS],
            rest: [0; REST],
            drape: [0; DRAPE],
            pins: [0; PINS],
        }
    }
}

impl Expected {
    // Those of each seat.
    pub fn settings(&self) -> &[[u64; settings::NUMBERS]]
        ensures { length result.now ≡ SEATS }
    {
        self.settings.as_chunks().0
    }

    pub fn record(&self) -> Record {
        let settings = self.settings();
        Record {
            counts: self.counts.map(usize::of),
            settings: array::from_fn(|seat| settings::of(&settings[seat])),
        }
    }

    // The places of an area. Where there is no such area it has none, and no error is made of it: a run of no
    // words fits there, and is not malformed.
    fn area_mut(&mut self, area: Option<Area>) -> &mut [u64] {
        match area {
            Some(Area::Counts) => &mut self.counts,
            Some(Area::Settings) => &mut self.settings,
            Some(Area::Rest) => &mut self.rest,
            Some(Area::Drape) => &mut self.drape,
            Some(Area::Pins) => &mut self.pins,
            None => &mut [],
        }
    }

    // Makes a run of new words: area, first place, and the list of them.
    fn make_run(&mut self, words: &mut Words<'_>) -> Result<(), Malformed> {
        let area = self.area_mut(Area::try_from(words.word()?).ok());
        let first: usize = words.value()?;
        let list = words.list()?;
        let from = area.get_mut(first..).ok_or(Malformed)?;
        let to = from.get_mut(..list.len()).ok_or(Malformed)?;
        to.copy_from_slice(list);
        Ok(())
    }

    // Makes the runs that the line ends with; their number comes before them.
    pub fn make_runs(&mut self, words: &mut Words<'_>) -> Result<(), Malformed> {
        let runs = words.word()?;
        for _ in 0..runs {
            self.make_run(words)?;
        }
        words.end()
    }
}
