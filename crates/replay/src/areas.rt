// The record and the areas that the bench is lent.
use crate::area::{Area, DRAPE, PINS, REST, WORK};
use crate::difference::Difference;
use crate::expected::Expected;
use crate::stored::{Stored, first_other};
use crate::{garbage, settings};
use bench::areas::SEATS;
use bench::seats::Record;

// examples has the like of it, but no library is of both programs.
#[derive(Drop)]
pub struct Areas {
    pub record: Record,
    pub rest: [f64; REST],
    pub drape: [f64; DRAPE],
    pub pins: [u8; PINS],
    pub work: [f64; WORK],
}

impl Default for Areas {
    fn default() -> Areas {
        Areas {
            record: Record::default(),
            rest: [0.0; REST],
            drape: [0.0; DRAPE],
            pins: [0; PINS],
            work: [0.0; WORK],
        }
    }
}

impl Areas {
    // What the call of the line that so many came before begins with: record and areas as they are expected, and a
    // work area of which no number may matter. Filled where they stand, so that no array is copied on the stack.
    pub fn make_ready(&mut self, expected: &Expected, before: usize) {
        self.record = expected.record();
        fill(&mut self.rest, &expected.rest);
        fill(&mut self.drape, &expected.drape);
        fill(&mut self.pins, &expected.pins);
        for (place, number) in self.work.iter_mut().enumerate() {
            *number = f64::of(garbage::at(place, before));
        }
    }

    // The first place that is not as expected, or, in the work area past what is free, not as it was.
    pub fn difference(
        &self,
        expected: &Expected,
        free: usize,
        before: usize,
    ) -> Option<Difference> {
        self.in_record(expected)
            .or_else(|| in_area(Area::Rest, &self.rest, &expected.rest))
            .or_else(|| in_area(Area::Drape, &self.drape, &expected.drape))
            .or_else(|| in_area(Area::Pins, &self.pins, &expected.pins))
            .or_else(|| self.in_work(free, before))
    }

    // Seat by seat, the count before the settings. By the seat's number, which is told of the place.
    fn in_record(&self, expected: &Expected) -> Option<Difference> {
        let settings = expected.settings();
        (0..SEATS).find_map(|seat| {
            if !self.record.counts[seat].is(expected.counts[seat]) {
                return Some(Difference::Place(Area::Counts, seat));
            }
            let numbers = settings::numbers(&self.record.settings[seat]);
            let i = first_other(&numbers, &settings[seat])?;
            let place = settings::NUMBERS * seat + i;
            Some(Difference::Place(Area::Settings, place))
        })
    }

    fn in_work(&self, free: usize, before: usize) -> Option<Difference> {
        self.work
            .iter()
            .enumerate()
            .skip(free)
            .find(|(place, number)| !number.is(garbage::at(*place, before)))
            .map(|(place, _)| Difference::Work(place))
    }
}

fn fill<T: Stored>(places: &mut [T], words: &[u64]) {
    for (place, word) in places.iter_mut().zip(words) {
        *place = T::of(*word);
    }
}

fn in_area<T: Stored, const N: usize>(
    area: Area,
    places: &[T; N],
    words: &[u64; N],
) -> Option<Difference> {
    first_other(places, words).map(|place| Difference::Place(area, place))
}
