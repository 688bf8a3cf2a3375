// The work area, and where its parts begin after the blocks of the matrix: the vectors of the solve, and
// the positions, frames and velocities as a step would leave them.
ghost use Rattle.std.specs.Prelude.{◌≡◌, ℕ, ◌≤◌};
ghost use Rattle.matrix.specs.Rows.{rows3};
ghost use Rattle.matrix.specs.Area.{place_positions, place_frames};

use crate::vertices::MOST;

// As many vertices have MOST rows of four numbers, and 5 * MOST - 6 blocks of sixteen.
const ROWS: usize = 4 * MOST;

// Three numbers for each of as many vertices as a strand may have.
pub const VECTORS: usize = 3 * MOST;

pub const R: usize = 16 * (5 * MOST - 6);

pub const U: usize = R + ROWS;

pub const P: usize = U + ROWS;

pub const AP: usize = P + ROWS;

pub const POSITIONS: usize = AP + ROWS;

pub const FRAMES: usize = POSITIONS + VECTORS;

pub const VELOCITIES: usize = FRAMES + VECTORS;

// How many numbers it has in all.
pub const NUMBERS: usize = VELOCITIES + VECTORS;

// One array with places and no struct of parts, as document 01 has it. It is handed on beside n and
// not in a struct: the checker does not cover a `&mut` field that is lent again, and one that is read would
// bring no length to tell.
pub type Work = [f64; NUMBERS];

pub type Vectors = [f64; VECTORS];

// One number for each.
pub type Lengths = [f64; MOST];

// The staged positions. Not one function of a place with `frames`: each has its place in its clause.
pub fn positions(work: &Work) -> &Vectors
    ensures { (n : ℕ) → n ≤ 32 → rows3 result.now 0 n ≡ rows3 work.now place_positions n }
{
    work[POSITIONS..FRAMES].as_array().unwrap()
}

// The staged x axes of the frames.
pub fn frames(work: &Work) -> &Vectors
    ensures { (n : ℕ) → n ≤ 32 → rows3 result.now 0 n ≡ rows3 work.now place_frames n }
{
    work[FRAMES..VELOCITIES].as_array().unwrap()
}
