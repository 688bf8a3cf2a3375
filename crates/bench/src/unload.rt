// The call unload: the seat is emptied.
ghost use Rattle.std.specs.Prelude.{◌≡◌};
ghost use Rattle.bench.specs.Strand.{bench_of};
ghost use Rattle.bench.specs.Answers.{said};
ghost use Rattle.bench.specs.Refusals.{told, record_after};
ghost use Rattle.bench.specs.Asks.{unload, call};
ghost use Rattle.bench.specs.Calls.{number_of, answer_of, after_of};

use crate::refusal::Refusal;
use crate::seats::{Record, Settings};
use crate::{areas, entry, seats, strands};

// Whether it is refused, and why.
fn asked(
    seats: Record,
    rest: &[f64],
    drape: &[f64],
    pins: &[u8],
    seat: usize,
) -> Result<(), Refusal>
    ensures { told result ≡ number_of (call seat unload) (bench_of seats rest.now drape.now pins.now) }
{
    let long = areas::are_whole(rest, drape, pins);
    entry::taken(&seats, long, seat)?;
    Ok(())
}

// Everything that the seat has becomes 0. Two calls: document 01 has the record by value, and where it
// stands.
pub fn unload_value(
    seats: Record,
    rest: &mut [f64],
    drape: &mut [f64],
    pins: &mut [u8],
    seat: usize,
) -> Result<Record, Refusal>
    ensures answer { said (told result) ≡ answer_of (call seat unload) (bench_of seats rest.old drape.old pins.old) }
    ensures after { bench_of (record_after seats result) rest.new drape.new pins.new ≡ after_of (call seat unload) (bench_of seats rest.old drape.old pins.old) }
{
    asked(seats, rest, drape, pins, seat)?;
    strands::clear(rest, drape, pins, seat);
    Ok(seats::seated(seats, seat, 0, Settings::default()))
}

// The same, with the record where it stands.
pub fn unload(
    seats: &mut Record,
    rest: &mut [f64],
    drape: &mut [f64],
    pins: &mut [u8],
    seat: usize,
) -> Result<(), Refusal>
    ensures answer { said (told result) ≡ answer_of (call seat unload) (bench_of seats.old rest.old drape.old pins.old) }
    ensures after { bench_of seats.new rest.new drape.new pins.new ≡ after_of (call seat unload) (bench_of seats.old rest.old drape.old pins.old) }
{
    *seats = unload_value(*seats, rest, drape, pins, seat)?;
    Ok(())
}
