// The solve of a step.
ghost use Rattle.std.specs.Prelude.{◌≡◌};
ghost use Rattle.matrix.specs.Area.{after_vectors};
ghost use Rattle.matrix.specs.System.{system_at};
ghost use Rattle.matrix.specs.ConjugateGradient.{vectors_at, outcome};
ghost use Rattle.bench.specs.Step.{solved};

use crate::areas::PinPart;
use matrix::area::Work;
use matrix::conjugate_gradient::Solve;
use matrix::vertices::Vertices;
use matrix::{conjugate_gradient, pins};

// No solve goes on longer.
const ITERATIONS: usize = 1000;

// Pins act on the system in the work area, and it is solved there.
#[tactic(auto, unfolding(crate::specs::Step::solved, matrix::specs::System::system_at))]
pub(crate) fn solve(work: &mut Work, pins: &PinPart, n: Vertices, tolerance: f64) -> Solve
    ensures outcome_is { outcome (vectors_at n.count work.new) result.count result.ratio ≡ solved n.count pins.now tolerance (system_at n.count work.old) }
    ensures after_vectors_kept { after_vectors work.new ≡ after_vectors work.old }
{
    pins::fix_system(work, pins, n);
    conjugate_gradient::conjugate_gradient(work, n, tolerance, ITERATIONS)
}
