// The calls on the bench, each with the areas as they are lent.
use crate::areas::Areas;
use crate::at_most::AtMost;
use crate::call::{Asked, Call, Load};
use crate::lent::Lent;
use crate::look::StoredLook;
use crate::stored::{Stored, first_other};
use bench::answers::{Pick, StepAnswer};
use bench::look::Area;
use bench::refusal::Refusal;
use bench::seats::Record;
use bench::{load, look, pin, refusal, steps, unload};
use std::array;

// Numbers of the longest list that a load is handed.
const LIST: usize = 128;

// The numbers of such a list.
#[derive(Drop)]
struct List {
    numbers: [f64; LIST],
    length: AtMost<LIST>,
}

impl List {
    // None of a longer one.
    fn of(words: &[u64]) -> Option<List> {
        Some(List {
            numbers: array::from_fn(|i| words.get(i).map_or(0.0, |word| f64::of(*word))),
            length: AtMost::try_from(words.len()).ok()?,
        })
    }

    fn numbers(&self) -> &[f64] {
        self.length.of(&self.numbers)
    }
}

impl Areas {
    // Makes the call. Whether its answer is the stored one. One arm for each kind: each hands over other things, and
    // the check names a kind without an arm.
    pub fn make(&mut self, call: &Call<'_>) -> bool {
        let lent = call.lent;
        let seat = call.seat;
        match &call.asked {
            Asked::Load(load) => self.has_loaded(lent, seat, load),
            Asked::Unload { refusal } => told(self.unload(lent, seat), *refusal),
            Asked::Pin {
                vertex,
                component,
                byte,
                refusal,
            } => told(self.pin(lent, seat, *vertex, *component, *byte), *refusal),
            Asked::Look { kind, stored } => self.has_shown(lent, seat, *kind, *stored),
            Asked::Companion { kind, refusal } => told(self.companion(lent, seat, *kind), *refusal),
            Asked::Step { pick, dt, answer } => answer.is(self.step(lent, seat, *pick, *dt)),
        }
    }

    // A load that is stored with a longer list than one is handed has another answer, whatever it is.
    fn has_loaded(&mut self, lent: Lent, seat: usize, load: &Load<'_>) -> bool {
        let (Some(positions), Some(frames)) = (List::of(load.positions), List::of(load.frames))
        else {
            return false;
        };
        let outcome = load::load_value(
            self.record,
            lent.rest.of_mut(&mut self.rest),
            lent.drape.of_mut(&mut self.drape),
            lent.pins.of_mut(&mut self.pins),
            seat,
            load.n,
            load.settings,
            positions.numbers(),
            frames.numbers(),
        );
        self.record = outcome.unwrap_or(self.record);
        told(outcome, load.refusal)
    }

    fn unload(&mut self, lent: Lent, seat: usize) -> Result<Record, Refusal> {
        let outcome = unload::unload_value(
            self.record,
            lent.rest.of_mut(&mut self.rest),
            lent.drape.of_mut(&mut self.drape),
            lent.pins.of_mut(&mut self.pins),
            seat,
        );
        self.record = outcome.unwrap_or(self.record);
        outcome
    }

    fn pin(
        &mut self,
        lent: Lent,
        seat: usize,
        vertex: usize,
        component: usize,
        byte: u8,
    ) -> Result<(), Refusal> {
        pin::pin(
            self.record,
            lent.pins.of_mut(&mut self.pins),
            seat,
            vertex,
            component,
            byte,
        )
    }

    fn look(&self, lent: Lent, seat: usize, kind: usize) -> &[f64] {
        let rest = lent.rest.of(&self.rest);
        look::look(self.record, rest, lent.drape.of(&self.drape), seat, kind)
    }

    fn companion(&self, lent: Lent, seat: usize, kind: usize) -> Result<(), Refusal> {
        let rest = lent.rest.of(&self.rest);
        look::companion(self.record, rest, lent.drape.of(&self.drape), seat, kind)
    }

    fn step(&mut self, lent: Lent, seat: usize, pick: Pick, dt: Option<f64>) -> StepAnswer {
        let seats = self.record;
        let rest = lent.rest.of(&self.rest);
        let drape = lent.drape.of_mut(&mut self.drape);
        let pins = lent.pins.of(&self.pins);
        let work = lent.work.of_mut(&mut self.work);
        // One arm for each of the bench's two calls.
        match dt {
            None => steps::update_static(seats, rest, drape, pins, work, seat, pick),
            Some(dt) => steps::update_dynamic(seats, rest, drape, pins, work, seat, pick, dt),
        }
    }

    // Whether the look hands back the stored numbers, and these stand where they are stored to stand.
    fn has_shown(
        &self,
        lent: Lent,
        seat: usize,
        kind: usize,
        stored: Option<StoredLook<'_>>,
    ) -> bool {
        let numbers = self.look(lent, seat, kind);
        match stored {
            None => numbers.is_empty(),
            Some(stored) => are_stored(numbers, stored.numbers) & self.holds(lent, stored),
        }
    }

    // Whether the numbers stand in the area as it is lent, from the place on.
    fn holds(&self, lent: Lent, stored: StoredLook<'_>) -> bool {
        let numbers = match stored.area {
            Area::Rest => lent.rest.of(&self.rest),
            Area::Drape => lent.drape.of(&self.drape),
        };
        numbers
            .get(stored.place..)
            .and_then(|it| it.get(..stored.numbers.len()))
            .is_some_and(|it| are_stored(it, stored.numbers))
    }
}

// Whether the stored number is the one that the outcome tells.
fn told<T: Copy>(outcome: Result<T, Refusal>, stored: u64) -> bool {
    refusal::told(outcome).is(stored)
}

fn are_stored(numbers: &[f64], words: &[u64]) -> bool {
    (numbers.len() == words.len()) & first_other(numbers, words).is_none()
}
