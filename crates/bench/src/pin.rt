// The call pin: one byte of one seat's pins.
ghost use Rattle.std.specs.Prelude.{◌≡◌, List, ℕ, Float};
ghost use Rattle.bench.specs.Strand.{bench_of};
ghost use Rattle.bench.specs.Answers.{said};
ghost use Rattle.bench.specs.Refusals.{told};
ghost use Rattle.bench.specs.Asks.{pin, call};
ghost use Rattle.bench.specs.Calls.{number_of, answer_of, after_of};

use crate::refusal::Refusal;
use crate::seats::Record;
use crate::{areas, entry};

// Whether it is refused, and why.
fn asked(
    seats: Record,
    pins: &[u8],
    seat: usize,
    vertex: usize,
    component: usize,
) -> Result<(), Refusal>
    ensures { (rest drape : List Float) (byte : ℕ) → told result ≡ number_of (call seat (pin vertex component byte)) (bench_of seats rest drape pins.now) }
{
    let n = entry::taken(&seats, pins.len() == areas::PINS, seat)?;
    if !((vertex < n.count) & (component < 4)) {
        return Err(Refusal::Index);
    }
    Ok(())
}

// The byte becomes the pin of a vertex's component. Document 01 refuses a component that there is not with
// 5, so it is any number, and from there on an index. The seat's place is a product, as in strands.
pub fn pin(
    seats: Record,
    pins: &mut [u8],
    seat: usize,
    vertex: usize,
    component: usize,
    byte: u8,
) -> Result<(), Refusal>
    ensures answer { (rest drape : List Float) → said (told result) ≡ answer_of (call seat (pin vertex component byte)) (bench_of seats rest drape pins.old) }
    ensures after { (rest drape : List Float) → bench_of seats rest drape pins.new ≡ after_of (call seat (pin vertex component byte)) (bench_of seats rest drape pins.old) }
{
    asked(seats, pins, seat, vertex, component)?;
    pins[areas::PIN_PART * seat + (4 * vertex + component)] = byte;
    Ok(())
}
