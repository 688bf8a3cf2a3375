// The call look, which hands back a part of an area itself, and its companion.
ghost use Rattle.std.specs.Prelude.{◌≡◌, ◌+◌, ◌≤◌, ◌<◌, List, ℕ, cond, leb, length, get_or, IfOk};
ghost use Rattle.matrix.specs.Parts.{part};
ghost use Rattle.bench.specs.Areas.{seats};
ghost use Rattle.bench.specs.Strand.{bench_of};
ghost use Rattle.bench.specs.Answers.{said, handed};
ghost use Rattle.bench.specs.Refusals.{told};
ghost use Rattle.bench.specs.Asks.{look, companion, call};
ghost use Rattle.bench.specs.Calls.{number_of, answer_of, after_of};
ghost use Rattle.bench.specs.Looks.{kind_number, numbers_in, place_on};

use crate::refusal::Refusal;
use crate::seats::Record;
use crate::{areas, entry};
use matrix::vertices::Vertices;

// What a look hands back of a strand.
#[derive(Clone, Copy)]
enum Shown {
    RestPositions,
    RestFrames,
    Positions,
    Frames,
    Velocities,
}

// Document 01 refuses a kind that there is not with 5, so a call gives it as any number.
impl TryFrom<usize> for Shown {
    type Error = Refusal;

    ghost try_from_gives = { λ kind r. (told r ≡ cond (leb 5 kind) 5 0) × IfOk r (λ s. kind_number s ≡ kind) };

    #[tactic(auto, unfolding(crate::specs::Refusals::told, crate::specs::Refusals::refusal_number))]
    fn try_from(kind: usize) -> Result<Shown, Refusal> {
        match kind {
            0 => Ok(Shown::RestPositions),
            1 => Ok(Shown::RestFrames),
            2 => Ok(Shown::Positions),
            3 => Ok(Shown::Frames),
            4 => Ok(Shown::Velocities),
            _ => Err(Refusal::Index),
        }
    }
}

// The two areas that are looked at.
#[derive(Clone, Copy)]
pub enum Area {
    Rest,
    Drape,
}

// A part of one of them: its first place, and how many numbers it has.
#[derive(Clone, Copy)]
pub struct Place {
    pub area: Area,
    pub at: usize,
    pub count: usize,
}

// Where what is shown stands, of the strand of n vertices on the seat. The place is a number, as C is told it.
fn place_on(seat: usize, shown: Shown, n: Vertices) -> Place
    requires { seat < seats }
    ensures { result ≡ place_on seat (kind_number shown) n.count }
{
    let rest = areas::REST_PART * seat;
    let drape = areas::DRAPE_PART * seat;
    let (area, at) = match shown {
        Shown::RestPositions => (Area::Rest, rest),
        Shown::RestFrames => (Area::Rest, rest + areas::FRAMES),
        Shown::Positions => (Area::Drape, drape),
        Shown::Frames => (Area::Drape, drape + areas::FRAMES),
        Shown::Velocities => (Area::Drape, drape + areas::VELOCITIES),
    };
    Place {
        area,
        at,
        count: 3 * n.count,
    }
}

// What a look is refused with, else where the numbers stand that it hands back.
pub fn place_of(
    seats: Record,
    rest: &[f64],
    drape: &[f64],
    seat: usize,
    kind: usize,
) -> Result<Place, Refusal>
    ensures number { (pins : List ℕ) → told result ≡ number_of (call seat (look kind)) (bench_of seats rest.now drape.now pins) }
    ensures place { IfOk result (λ p. p ≡ place_on seat kind (get_or seats.counts seat 0)) }
    ensures fits { IfOk result (λ p. p.at + p.count ≤ length (numbers_in p.area rest.now drape.now)) }
    ensures shown { (pins : List ℕ) → IfOk result (λ p. handed (part (numbers_in p.area rest.now drape.now) p.at p.count) ≡ answer_of (call seat (look kind)) (bench_of seats rest.now drape.now pins)) }
{
    let long = (rest.len() == areas::REST) & (drape.len() == areas::DRAPE);
    let n = entry::taken(&seats, long, seat)?;
    let shown = Shown::try_from(kind)?;
    Ok(place_on(seat, shown, n))
}

// What the look with the same inputs is refused with, if anything.
pub fn companion(
    seats: Record,
    rest: &[f64],
    drape: &[f64],
    seat: usize,
    kind: usize,
) -> Result<(), Refusal>
    ensures answer { (pins : List ℕ) → said (told result) ≡ answer_of (call seat (companion kind)) (bench_of seats rest.now drape.now pins) }
    ensures after { (pins : List ℕ) → bench_of seats rest.now drape.now pins ≡ after_of (call seat (companion kind)) (bench_of seats rest.now drape.now pins) }
{
    place_of(seats, rest, drape, seat, kind)?;
    Ok(())
}

// The numbers of the seat's strand that the kind stands for: 0 rest positions, 1 rest frames, 2 drape
// positions, 3 drape frames, 4 velocities; none where the look is refused, as document 01 says.
pub fn look<'a>(
    seats: Record,
    rest: &'a [f64],
    drape: &'a [f64],
    seat: usize,
    kind: usize,
) -> &'a [f64]
    ensures answer { (pins : List ℕ) → handed result.now ≡ answer_of (call seat (look kind)) (bench_of seats rest.now drape.now pins) }
    ensures after { (pins : List ℕ) → bench_of seats rest.now drape.now pins ≡ after_of (call seat (look kind)) (bench_of seats rest.now drape.now pins) }
{
    let Ok(p) = place_of(seats, rest, drape, seat, kind) else {
        return &rest[..0];
    };
    match p.area {
        Area::Rest => &rest[p.at..p.at + p.count],
        Area::Drape => &drape[p.at..p.at + p.count],
    }
}
