// The bench for programs in C and Rust: its calls, with picks and answers as numbers.
#![tactic(auto)]

ghost use Rattle.std.specs.Prelude.{◌≡◌, List, ℕ, Float};
ghost use Rattle.roots.specs.Sqrt.{sqrt_of};
ghost use Rattle.vectors.specs.Vec3.{vec3};
ghost use Rattle.bench.specs.Strand.{bench_of};
ghost use Rattle.bench.specs.Refusals.{told, record_after};
ghost use Rattle.matrix.specs.Parts.{part};
ghost use Rattle.bench.specs.Rows.{LeavesWork};
ghost use Rattle.bench.specs.Answers.{said, handed, reported};
ghost use Rattle.bench.specs.Step.{still, over};
ghost use Rattle.bench.specs.Asks.{load_of, load, unload, pin, look, companion, step, call_with, call};
ghost use Rattle.bench.specs.Calls.{number_of, answer_of, after_of};
ghost use Rattle.bench_c.specs.Exported.{pick_of, report_of, looked_at, placed, place_of};

use bench::answers::{Pick, StepAnswer};
use bench::refusal::Refusal;
use bench::seats::{Record, Settings};
use bench::{load, look, pin, refusal, steps, unload};
use vectors::vec3::Vec3;

// The record after a call, and the number that the call is refused with, 0 for none. C has no Result.
#[repr(C)]
#[derive(Clone, Copy)]
pub struct Changed {
    pub seats: Record,
    pub refusal: u8,
}

// A step's answer: the number that it is refused with, 0 for none, and its numbers. C has no enum with
// values, so a refusal is a number here and below.
#[repr(C)]
#[derive(Clone, Copy)]
pub struct Report {
    pub number: u8,
    pub energy: f64,
    pub count: usize,
    pub ratio: f64,
}

// A part of an area: its first place, and how many numbers it has.
#[repr(C)]
#[derive(Clone, Copy, Default)]
pub struct Place {
    pub at: usize,
    pub count: usize,
}

// No pick where the flag is 0. C has no Option, and the pick is three arguments there, so no `From`.
fn picked(flag: u8, vertex: usize, goal: Vec3) -> Pick
    ensures { result ≡ pick_of flag vertex goal }
{
    if flag == 0 {
        return Pick::Nothing;
    }
    Pick::At(vertex, goal)
}

impl Changed {
    // What a call on a record comes to, by its outcome.
    #[tactic(auto, unfolding(bench::specs::Refusals::record_after))]
    fn new(before: Record, outcome: Result<Record, Refusal>) -> Changed
        ensures seats { result.seats ≡ record_after before outcome }
        ensures refusal { result.refusal ≡ told outcome }
    {
        Changed {
            seats: outcome.unwrap_or(before),
            refusal: refusal::told(outcome),
        }
    }
}

impl From<StepAnswer> for Report {
    ghost from_gives = { λ a r. r ≡ report_of (reported a) };

    #[tactic(auto, unfolding(bench::specs::Answers::step_numbers, bench::specs::Answers::numbers_told))]
    fn from(a: StepAnswer) -> Report {
        match a {
            StepAnswer::Accepted {
                energy,
                ratio,
                count,
            } => Report {
                number: 0,
                energy,
                count,
                ratio,
            },
            StepAnswer::Refused(r) => Report {
                number: r.into(),
                energy: 0.0,
                count: 0,
                ratio: 0.0,
            },
        }
    }
}

// The area is not told: C knows it by the kind.
impl From<look::Place> for Place {
    ghost from_gives = { λ p q. q ≡ placed p };

    fn from(p: look::Place) -> Place {
        Place {
            at: p.at,
            count: p.count,
        }
    }
}

// A strand is laid on a seat: the record after that, and the number that it is refused with.
#[unsafe(no_mangle)]
pub extern "C" fn hairbench_load_value(
    record: Record,
    rest: &mut [f64],
    drape: &mut [f64],
    pins: &mut [u8],
    seat: usize,
    n: usize,
    settings: Settings,
    positions: &[f64],
    frames: &[f64],
) -> Changed
    ensures answer { said result.refusal ≡ answer_of (call seat (load (load_of n settings positions.now frames.now))) (bench_of «record» rest.old drape.old pins.old) }
    ensures after { bench_of result.seats rest.new drape.new pins.new ≡ after_of (call seat (load (load_of n settings positions.now frames.now))) (bench_of «record» rest.old drape.old pins.old) }
{
    let outcome = load::load_value(
        record, rest, drape, pins, seat, n, settings, positions, frames,
    );
    Changed::new(record, outcome)
}

// The seat is emptied.
#[unsafe(no_mangle)]
pub extern "C" fn hairbench_unload_value(
    record: Record,
    rest: &mut [f64],
    drape: &mut [f64],
    pins: &mut [u8],
    seat: usize,
) -> Changed
    ensures answer { said result.refusal ≡ answer_of (call seat unload) (bench_of «record» rest.old drape.old pins.old) }
    ensures after { bench_of result.seats rest.new drape.new pins.new ≡ after_of (call seat unload) (bench_of «record» rest.old drape.old pins.old) }
{
    let outcome = unload::unload_value(record, rest, drape, pins, seat);
    Changed::new(record, outcome)
}

// One pin byte is written.
#[unsafe(no_mangle)]
pub extern "C" fn hairbench_pin(
    record: Record,
    pins: &mut [u8],
    seat: usize,
    vertex: usize,
    component: usize,
    byte: u8,
) -> u8
    ensures answer { (rest drape : List Float) → said result ≡ answer_of (call seat (pin vertex component byte)) (bench_of «record» rest drape pins.old) }
    ensures after { (rest drape : List Float) → bench_of «record» rest drape pins.new ≡ after_of (call seat (pin vertex component byte)) (bench_of «record» rest drape pins.old) }
{
    refusal::told(pin::pin(record, pins, seat, vertex, component, byte))
}

// What the look with the same inputs is refused with, 0 for none.
#[unsafe(no_mangle)]
pub extern "C" fn hairbench_companion(
    record: Record,
    rest: &[f64],
    drape: &[f64],
    seat: usize,
    kind: usize,
) -> u8
    ensures answer { (pins : List ℕ) → said result ≡ answer_of (call seat (companion kind)) (bench_of «record» rest.now drape.now pins) }
    ensures after { (pins : List ℕ) → bench_of «record» rest.now drape.now pins ≡ after_of (call seat (companion kind)) (bench_of «record» rest.now drape.now pins) }
{
    refusal::told(look::companion(record, rest, drape, seat, kind))
}

// Where the numbers of a look stand, and how many they are; none where it is refused. Kinds 0 and 1 are
// of the rest area, the others of the drape area.
#[unsafe(no_mangle)]
pub extern "C" fn hairbench_look(
    record: Record,
    rest: &[f64],
    drape: &[f64],
    seat: usize,
    kind: usize,
) -> Place
    ensures place { (pins : List ℕ) → result ≡ place_of seat kind (bench_of «record» rest.now drape.now pins) }
    ensures part { (pins : List ℕ) → handed (part (looked_at kind rest.now drape.now) result.at result.count) ≡ answer_of (call seat (look kind)) (bench_of «record» rest.now drape.now pins) }
{
    look::place_of(record, rest, drape, seat, kind).map_or(Place::default(), Place::from)
}

// The root of x.
#[unsafe(no_mangle)]
pub extern "C" fn hairbench_sqrt(x: f64) -> f64
    ensures { result ≡ sqrt_of x }
{
    roots::sqrt(x)
}

// A static step; no pick where `flag` is 0. C has a name for each kind of step.
#[unsafe(no_mangle)]
pub extern "C" fn hairbench_step_static(
    record: Record,
    rest: &[f64],
    drape: &mut [f64],
    pins: &[u8],
    work: &mut [f64],
    seat: usize,
    flag: u8,
    vertex: usize,
    x: f64,
    y: f64,
    z: f64,
) -> Report
    ensures answer { result ≡ report_of (answer_of (call_with work.old seat (step (pick_of flag vertex (vec3 x y z)) still)) (bench_of «record» rest.now drape.old pins.now)) }
    ensures after { bench_of «record» rest.now drape.new pins.now ≡ after_of (call_with work.old seat (step (pick_of flag vertex (vec3 x y z)) still)) (bench_of «record» rest.now drape.old pins.now) }
    ensures leaves_work { LeavesWork (number_of (call_with work.old seat (step (pick_of flag vertex (vec3 x y z)) still)) (bench_of «record» rest.now drape.old pins.now)) work.old work.new }
{
    let pick = picked(flag, vertex, Vec3 { x, y, z });
    steps::update_static(record, rest, drape, pins, work, seat, pick).into()
}

// A dynamic step; no pick where `flag` is 0.
#[unsafe(no_mangle)]
pub extern "C" fn hairbench_step_dynamic(
    record: Record,
    rest: &[f64],
    drape: &mut [f64],
    pins: &[u8],
    work: &mut [f64],
    seat: usize,
    flag: u8,
    vertex: usize,
    x: f64,
    y: f64,
    z: f64,
    dt: f64,
) -> Report
    ensures answer { result ≡ report_of (answer_of (call_with work.old seat (step (pick_of flag vertex (vec3 x y z)) (over dt))) (bench_of «record» rest.now drape.old pins.now)) }
    ensures after { bench_of «record» rest.now drape.new pins.now ≡ after_of (call_with work.old seat (step (pick_of flag vertex (vec3 x y z)) (over dt))) (bench_of «record» rest.now drape.old pins.now) }
    ensures leaves_work { LeavesWork (number_of (call_with work.old seat (step (pick_of flag vertex (vec3 x y z)) (over dt))) (bench_of «record» rest.now drape.old pins.now)) work.old work.new }
{
    let pick = picked(flag, vertex, Vec3 { x, y, z });
    steps::update_dynamic(record, rest, drape, pins, work, seat, pick, dt).into()
}
