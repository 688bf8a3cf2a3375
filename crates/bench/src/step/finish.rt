// The end of a step: the solution is tested, the staged shape moves, and what would be left on the drape
// is tested before it is copied there.
ghost use Rattle.std.specs.Prelude.{◌≡◌, ◌&&◌};
ghost use Rattle.vectors.specs.Finite.{is_finite, vec4_is_finite};
ghost use Rattle.matrix.specs.Rows.{rows4};
ghost use Rattle.matrix.specs.Area.{place_u};
ghost use Rattle.matrix.specs.System.{every};
ghost use Rattle.matrix.specs.HairSystem.{staged_shape};
ghost use Rattle.matrix.specs.ConjugateGradient.{vectors_at, outcome};
ghost use Rattle.bench.specs.Rows.{first};
ghost use Rattle.bench.specs.Refusals.{told};
ghost use Rattle.bench.specs.Update.{update_solution_hair};
ghost use Rattle.bench.specs.Step.{finish_rows, drape_after, drape_by};

use crate::areas::{DrapePart, PinPart};
use crate::refusal::Refusal;
use crate::rod3_darboux;
use crate::step::kind::Kind;
use matrix::area::Work;
use matrix::conjugate_gradient::Solve;
use matrix::vertices::Vertices;
use matrix::{area, system};
use vectors::finite::Finite;
use vectors::vec4::Vec4;

// Whether 9 does not decline the solution and its ratio.
#[tactic(auto, unfolding(matrix::specs::Rows::rows4))]
fn solution_is_finite(work: &Work, n: Vertices, ratio: f64) -> bool
    ensures { result ≡ (is_finite ratio && every vec4_is_finite (rows4 work.now place_u n.count)) }
{
    Finite::is_finite(ratio) & system::rows_are_finite::<Vec4>(work, area::U, n.count)
}

// A step of any kind ends.
pub(crate) fn finish<K: Kind>(
    kind: K,
    work: &mut Work,
    drape: &mut DrapePart,
    pins: &PinPart,
    n: Vertices,
    s: Solve,
) -> Result<(), Refusal>
    ensures number { told result ≡ first (finish_rows n.count pins.now (staged_shape n.count work.old) (outcome (vectors_at n.count work.old) s.count s.ratio) (drape_after (K.time kind) n.count pins.now drape.old (update_solution_hair n.count pins.now (staged_shape n.count work.old) (rows4 work.old place_u n.count)))) }
    ensures drape_after { drape.new ≡ drape_by (told result) drape.old (drape_after (K.time kind) n.count pins.now drape.old (update_solution_hair n.count pins.now (staged_shape n.count work.old) (rows4 work.old place_u n.count))) }
{
    if !solution_is_finite(work, n, s.ratio) {
        return Err(Refusal::Solution);
    }
    if !rod3_darboux::update_solution_hair(work, pins, n) {
        return Err(Refusal::Turn);
    }
    if !kind.stage_end(work, drape, pins, n) {
        return Err(Refusal::Drape);
    }
    kind.copy(drape, work, pins, n);
    Ok(())
}
