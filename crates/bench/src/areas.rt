// The lent areas, and a seat's part of each.
ghost use Rattle.std.specs.Prelude.{◌≡◌, ◌&&◌, length, eqb};
ghost use Rattle.bench.specs.Areas.{rest_numbers, drape_numbers, pin_bytes};

use matrix::area;
use matrix::vertices::MOST;

// How many seats there are.
pub const SEATS: usize = 6;

// Numbers in the rest area, numbers in the drape area, bytes in the pin area.
pub const REST: usize = SEATS * REST_PART;

pub const DRAPE: usize = SEATS * DRAPE_PART;

pub const PINS: usize = SEATS * PIN_PART;

// What one seat has of each.
pub const REST_PART: usize = 2 * VECTOR_PART;

pub const DRAPE_PART: usize = 4 * VECTOR_PART;

pub const PIN_PART: usize = 4 * MOST;

// What 32 vertices take as positions, frames, velocities or working copy.
pub const VECTOR_PART: usize = area::VECTORS;

// Where positions, frames, velocities and working copy begin in a seat's part of an area.
pub(crate) const POSITIONS: usize = 0;

pub(crate) const FRAMES: usize = VECTOR_PART;

pub(crate) const VELOCITIES: usize = 2 * VECTOR_PART;

pub(crate) const WORKING_COPY: usize = 3 * VECTOR_PART;

// One array each, with the places above, and no struct of vectors: document 01 has flat parts.
pub type RestPart = [f64; REST_PART];

pub type DrapePart = [f64; DRAPE_PART];

pub type PinPart = [u8; PIN_PART];

// Whether the three areas have their lengths. They are lent one by one: of a struct that holds what is
// written, the checker does not cover a field that is lent again.
pub(crate) fn are_whole(rest: &[f64], drape: &[f64], pins: &[u8]) -> bool
    ensures { result ≡ (eqb (length rest.now) rest_numbers && eqb (length drape.now) drape_numbers && eqb (length pins.now) pin_bytes) }
{
    (rest.len() == REST) & (drape.len() == DRAPE) & (pins.len() == PINS)
}
