// A seat's whole parts of the three areas, stored at once.
ghost use Rattle.std.specs.Prelude.{◌≡◌, ◌++◌, ◌*◌, ◌≤◌, ◌<◌, length, replicate};
ghost use Rattle.vectors.specs.Number.{plus_zero};
ghost use Rattle.matrix.specs.Parts.{put};
ghost use Rattle.bench.specs.Areas.{seats, rest_numbers, drape_numbers, pin_bytes, rest_part, drape_part, pin_part, vector_part};
ghost use Rattle.bench.specs.Requests.{padded};

use crate::{areas, parts};

// Everything that the seat has in the areas becomes 0. Public calls are lent slices, so the areas' lengths
// are clauses: arrays would have to be made of them at each caller, in three lines. The place of a part that
// is written is a product: of a list cut by `as_chunks_mut` a proof does not know what it ends as (tried).
pub(crate) fn clear(rest: &mut [f64], drape: &mut [f64], pins: &mut [u8], seat: usize)
    requires seat_lt_seats { seat < seats }
    requires rest_len { length rest.old ≡ rest_numbers }
    requires drape_len { length drape.old ≡ drape_numbers }
    requires pins_len { length pins.old ≡ pin_bytes }
    ensures rest_after { rest.new ≡ put rest.old (rest_part * seat) (replicate rest_part plus_zero) }
    ensures drape_after { drape.new ≡ put drape.old (drape_part * seat) (replicate drape_part plus_zero) }
    ensures pins_after { pins.new ≡ put pins.old (pin_part * seat) (replicate pin_part 0) }
{
    let r = areas::REST_PART * seat;
    let d = areas::DRAPE_PART * seat;
    let p = areas::PIN_PART * seat;
    rest[r..r + areas::REST_PART].fill(0.0);
    drape[d..d + areas::DRAPE_PART].fill(0.0);
    pins[p..p + areas::PIN_PART].fill(0);
}

// The two lists of a load: each has at most the numbers of 32 vertices.
#[derive(Clone, Copy)]
pub(crate) struct Lists<'a> {
    pub(crate) positions: &'a [f64],
    pub(crate) frames: &'a [f64],
    ghost positions_fit: { length positions.now ≤ vector_part },
    ghost frames_fit: { length frames.now ≤ vector_part },
}

// The list, and zeros up to the numbers of 32 vertices. Here and in the two that follow a part is a slice with
// its length as a clause, since halves and ranges of lists are handed over: each would become an array by a
// match, as in steps.
fn pad(area: &mut [f64], list: &[f64])
    requires area_len { length area.old ≡ vector_part }
    requires list_len { length list.now ≤ vector_part }
    ensures { area.new ≡ padded list.now }
{
    let (front, back) = area.split_at_mut(list.len());
    parts::store(front, list);
    back.fill(0.0);
}

// A rest part: the positions and the frames, each with zeros behind them.
fn lay_rest(rest: &mut [f64], lists: Lists<'_>)
    requires rest_len { length rest.old ≡ rest_part }
    ensures { rest.new ≡ padded lists.entry.positions.now ++ padded lists.entry.frames.now }
{
    let (xyz, framex) = rest.split_at_mut(areas::VECTOR_PART);
    pad(xyz, lists.positions);
    pad(framex, lists.frames);
}

// A drape part: positions and frames as at rest, velocities 0, and the positions again as the working
// copy.
fn lay_drape(drape: &mut [f64], lists: Lists<'_>)
    requires drape_len { length drape.old ≡ drape_part }
    ensures { drape.new ≡ padded lists.entry.positions.now ++ (padded lists.entry.frames.now ++ (replicate vector_part plus_zero ++ padded lists.entry.positions.now)) }
{
    let (shape, motion) = drape.split_at_mut(areas::REST_PART);
    lay_rest(shape, lists);
    let (velocities, copy) = motion.split_at_mut(areas::VECTOR_PART);
    velocities.fill(0.0);
    pad(copy, lists.positions);
}

// The strand is laid on the seat, without pins.
pub(crate) fn lay(
    rest: &mut [f64],
    drape: &mut [f64],
    pins: &mut [u8],
    seat: usize,
    lists: Lists<'_>,
)
    requires seat_lt_seats { seat < seats }
    requires rest_len { length rest.old ≡ rest_numbers }
    requires drape_len { length drape.old ≡ drape_numbers }
    requires pins_len { length pins.old ≡ pin_bytes }
    ensures rest_after { rest.new ≡ put rest.old (rest_part * seat) (padded lists.entry.positions.now ++ padded lists.entry.frames.now) }
    ensures drape_after { drape.new ≡ put drape.old (drape_part * seat) (padded lists.entry.positions.now ++ (padded lists.entry.frames.now ++ (replicate vector_part plus_zero ++ padded lists.entry.positions.now))) }
    ensures pins_after { pins.new ≡ put pins.old (pin_part * seat) (replicate pin_part 0) }
{
    let r = areas::REST_PART * seat;
    let d = areas::DRAPE_PART * seat;
    let p = areas::PIN_PART * seat;
    lay_rest(&mut rest[r..r + areas::REST_PART], lists);
    lay_drape(&mut drape[d..d + areas::DRAPE_PART], lists);
    pins[p..p + areas::PIN_PART].fill(0);
}
