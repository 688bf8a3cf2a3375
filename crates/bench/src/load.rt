// The call load: a strand is laid on an empty seat.
ghost use Rattle.std.specs.Prelude.{◌≡◌, ◌&&◌, ◌*◌, eqb, IfOk};
ghost use Rattle.vectors.specs.Finite.{is_finite};
ghost use Rattle.matrix.specs.System.{every};
ghost use Rattle.bench.specs.Strand.{bench_of};
ghost use Rattle.bench.specs.Given.{good_settings};
ghost use Rattle.bench.specs.Answers.{said};
ghost use Rattle.bench.specs.Refusals.{told, record_after};
ghost use Rattle.bench.specs.Asks.{load_of, load, call};
ghost use Rattle.bench.specs.Calls.{number_of, answer_of, after_of};

use crate::refusal::Refusal;
use crate::seats::{Record, Settings};
use crate::strands::Lists;
use crate::{areas, entry, given, seats, strands};
use matrix::vertices::Vertices;

// Whether both lists have three numbers for each vertex.
fn lists_fit(n: Vertices, positions: usize, frames: usize) -> bool
    ensures { result ≡ (eqb positions (3 * n.count) && eqb frames (3 * n.count)) }
{
    (positions == 3 * n.count) & (frames == 3 * n.count)
}

// Whether all that is given is finite, and no setting below 0.
fn given_fit(positions: &[f64], frames: &[f64], settings: Settings) -> bool
    ensures { result ≡ (every is_finite positions.now && every is_finite frames.now && good_settings settings) }
{
    given::numbers_are_finite(positions)
        & given::numbers_are_finite(frames)
        & given::good_settings(settings)
}

// What it is refused with, else the two lists. What a load is given goes one by one, as document 01
// gives it: a struct of it would be made for this call alone.
fn asked<'a>(
    seats: Record,
    rest: &[f64],
    drape: &[f64],
    pins: &[u8],
    seat: usize,
    n: usize,
    settings: Settings,
    positions: &'a [f64],
    frames: &'a [f64],
) -> Result<Lists<'a>, Refusal>
    ensures number { told result ≡ number_of (call seat (load (load_of n settings positions.now frames.now))) (bench_of seats rest.now drape.now pins.now) }
    ensures lists { IfOk result (λ l. (l.positions.now ≡ positions.now) × (l.frames.now ≡ frames.now)) }
{
    let long = areas::are_whole(rest, drape, pins);
    entry::vacant(&seats, long, seat)?;
    let n = Vertices::new(n).ok_or(Refusal::Lists)?;
    if !lists_fit(n, positions.len(), frames.len()) {
        return Err(Refusal::Lists);
    }
    if !given_fit(positions, frames, settings) {
        return Err(Refusal::Number);
    }
    if !given::edges_fit(positions, n) {
        return Err(Refusal::Edge);
    }
    Ok(Lists { positions, frames })
}

// The whole of the seat's parts is written; the strand's working copy is its rest shape, too.
// Two calls: document 01 has the record by value, and where it stands.
pub fn load_value(
    seats: Record,
    rest: &mut [f64],
    drape: &mut [f64],
    pins: &mut [u8],
    seat: usize,
    n: usize,
    settings: Settings,
    positions: &[f64],
    frames: &[f64],
) -> Result<Record, Refusal>
    ensures answer { said (told result) ≡ answer_of (call seat (load (load_of n settings positions.now frames.now))) (bench_of seats rest.old drape.old pins.old) }
    ensures after { bench_of (record_after seats result) rest.new drape.new pins.new ≡ after_of (call seat (load (load_of n settings positions.now frames.now))) (bench_of seats rest.old drape.old pins.old) }
{
    let lists = asked(
        seats, rest, drape, pins, seat, n, settings, positions, frames,
    )?;
    strands::lay(rest, drape, pins, seat, lists);
    Ok(seats::seated(seats, seat, n, settings))
}

// The same, with the record where it stands.
pub fn load(
    seats: &mut Record,
    rest: &mut [f64],
    drape: &mut [f64],
    pins: &mut [u8],
    seat: usize,
    n: usize,
    settings: Settings,
    positions: &[f64],
    frames: &[f64],
) -> Result<(), Refusal>
    ensures answer { said (told result) ≡ answer_of (call seat (load (load_of n settings positions.now frames.now))) (bench_of seats.old rest.old drape.old pins.old) }
    ensures after { bench_of seats.new rest.new drape.new pins.new ≡ after_of (call seat (load (load_of n settings positions.now frames.now))) (bench_of seats.old rest.old drape.old pins.old) }
{
    *seats = load_value(
        *seats, rest, drape, pins, seat, n, settings, positions, frames,
    )?;
    Ok(())
}
