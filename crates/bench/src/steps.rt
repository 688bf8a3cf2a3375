// The two calls that step a seat's strand.
ghost use Rattle.std.specs.Prelude.{◌≡◌, true, ◌*◌, ◌<◌, length};
ghost use Rattle.matrix.specs.Parts.{part, put};
ghost use Rattle.bench.specs.Areas.{seats, rest_numbers, drape_numbers, pin_bytes, rest_part, drape_part, pin_part};
ghost use Rattle.bench.specs.Strand.{strand, bench_of};
ghost use Rattle.bench.specs.Rows.{LeavesWork};
ghost use Rattle.bench.specs.Answers.{reported, step_numbers, numbers_told};
ghost use Rattle.bench.specs.Refusals.{answered};
ghost use Rattle.bench.specs.Step.{still, over, update_of, step_answer, step_drape};
ghost use Rattle.bench.specs.Asks.{step, call_with};
ghost use Rattle.bench.specs.Calls.{number_of, answer_of, after_of};

use crate::answers::{Numbers, Pick, StepAnswer};
use crate::areas::{PinPart, RestPart};
use crate::picked::Picked;
use crate::refusal::Refusal;
use crate::seats::{Record, Settings};
use crate::step::dynamic::Dynamic;
use crate::step::kind::Kind;
use crate::step::still::Static;
use crate::{areas, asked, step};
use matrix::area::Work;

// A step on a seat's parts. A match makes the drape's an array: with `unwrap` a proof would not know what
// was written.
fn on_parts<K: Kind>(
    kind: K,
    rest: &RestPart,
    drape: &mut [f64],
    pins: &PinPart,
    work: &mut Work,
    p: Picked,
    g: Settings,
) -> Result<Numbers, Refusal>
    requires drape_len { length drape.old ≡ drape_part }
    ensures value { answered result ≡ step_answer (update_of (strand p.n.count g rest.now drape.old pins.now) p.pick (K.time kind)) }
    ensures drape_after { drape.new ≡ step_drape drape.old (update_of (strand p.n.count g rest.now drape.old pins.now) p.pick (K.time kind)) }
{
    let Some(part) = drape.as_mut_array() else {
        unreachable!()
    };
    step::update(kind, rest, part, pins, work, p, g)
}

// A step of the seat's strand, which has the settings g. `seat < seats` is a clause here and in seats,
// strands and look: a type for a seat would take a clause more at each of six functions that hand it on.
fn on_seat<K: Kind>(
    kind: K,
    rest: &[f64],
    drape: &mut [f64],
    pins: &[u8],
    work: &mut Work,
    seat: usize,
    p: Picked,
    g: Settings,
) -> Result<Numbers, Refusal>
    requires seat_lt_seats { seat < seats }
    requires rest_len { length rest.now ≡ rest_numbers }
    requires drape_len { length drape.old ≡ drape_numbers }
    requires pins_len { length pins.now ≡ pin_bytes }
    ensures value { answered result ≡ step_answer (update_of (strand p.n.count g (part rest.now (rest_part * seat) rest_part) (part drape.old (drape_part * seat) drape_part) (part pins.now (pin_part * seat) pin_part)) p.pick (K.time kind)) }
    ensures drape_after { drape.new ≡ put drape.old (drape_part * seat) (step_drape (part drape.old (drape_part * seat) drape_part) (update_of (strand p.n.count g (part rest.now (rest_part * seat) rest_part) (part drape.old (drape_part * seat) drape_part) (part pins.now (pin_part * seat) pin_part)) p.pick (K.time kind))) }
{
    // A product, as in strands.
    let d = areas::DRAPE_PART * seat;
    on_parts(
        kind,
        &rest.as_chunks().0[seat],
        &mut drape[d..d + areas::DRAPE_PART],
        &pins.as_chunks().0[seat],
        work,
        p,
        g,
    )
}

// A step of the seat's strand, if it has one and nothing declines it.
fn stepped<K: Kind>(
    kind: K,
    seats: &Record,
    rest: &[f64],
    drape: &mut [f64],
    pins: &[u8],
    work: &mut [f64],
    seat: usize,
    pick: Pick,
) -> Result<Numbers, Refusal>
    ensures answer { reported (answered result) ≡ answer_of (call_with work.old seat (step pick (K.time kind))) (bench_of seats.now rest.now drape.old pins.now) }
    ensures numbers { step_numbers (answered result) ≡ numbers_told (answer_of (call_with work.old seat (step pick (K.time kind))) (bench_of seats.now rest.now drape.old pins.now)) }
    ensures after { bench_of seats.now rest.now drape.new pins.now ≡ after_of (call_with work.old seat (step pick (K.time kind))) (bench_of seats.now rest.now drape.old pins.now) }
    ensures leaves_work { LeavesWork (number_of (call_with work.old seat (step pick (K.time kind))) (bench_of seats.now rest.now drape.old pins.now)) work.old work.new }
{
    let p = asked::asked(kind, seats, rest, drape, pins, work, seat, pick)?;
    let settings = seats.settings;
    on_seat(
        kind,
        rest,
        drape,
        pins,
        work.as_mut_array().unwrap(),
        seat,
        p,
        settings[seat],
    )
}

// A static step of the seat's strand: its shape moves towards rest, against pins and pick. Document 01 has
// a call for each kind of step.
pub fn update_static(
    seats: Record,
    rest: &[f64],
    drape: &mut [f64],
    pins: &[u8],
    work: &mut [f64],
    seat: usize,
    pick: Pick,
) -> StepAnswer
    ensures answer { reported result ≡ answer_of (call_with work.old seat (step pick still)) (bench_of seats rest.now drape.old pins.now) }
    ensures numbers { step_numbers result ≡ numbers_told (answer_of (call_with work.old seat (step pick still)) (bench_of seats rest.now drape.old pins.now)) }
    ensures after { bench_of seats rest.now drape.new pins.now ≡ after_of (call_with work.old seat (step pick still)) (bench_of seats rest.now drape.old pins.now) }
    ensures leaves_work { LeavesWork (number_of (call_with work.old seat (step pick still)) (bench_of seats rest.now drape.old pins.now)) work.old work.new }
{
    stepped(Static, &seats, rest, drape, pins, work, seat, pick).into()
}

// A dynamic step of the seat's strand: it moves on for the time dt.
pub fn update_dynamic(
    seats: Record,
    rest: &[f64],
    drape: &mut [f64],
    pins: &[u8],
    work: &mut [f64],
    seat: usize,
    pick: Pick,
    dt: f64,
) -> StepAnswer
    ensures answer { reported result ≡ answer_of (call_with work.old seat (step pick (over dt))) (bench_of seats rest.now drape.old pins.now) }
    ensures numbers { step_numbers result ≡ numbers_told (answer_of (call_with work.old seat (step pick (over dt))) (bench_of seats rest.now drape.old pins.now)) }
    ensures after { bench_of seats rest.now drape.new pins.now ≡ after_of (call_with work.old seat (step pick (over dt))) (bench_of seats rest.now drape.old pins.now) }
    ensures leaves_work { LeavesWork (number_of (call_with work.old seat (step pick (over dt))) (bench_of seats rest.now drape.old pins.now)) work.old work.new }
{
    let kind = Dynamic { dt };
    stepped(kind, &seats, rest, drape, pins, work, seat, pick).into()
}
