// The positions that a dynamic step leaves: the working copy, which is the staged positions, but the old
// ones where they are pinned.
ghost use Rattle.std.specs.Prelude.{◌≡◌, ◌+◌, ◌*◌, ◌<◌};
ghost use Rattle.vectors.specs.Finite.{is_finite};
ghost use Rattle.matrix.specs.Parts.{put};
ghost use Rattle.matrix.specs.Rows.{row3, rows3, flat3};
ghost use Rattle.matrix.specs.System.{every};
ghost use Rattle.matrix.specs.Area as area;
ghost use Rattle.bench.specs.Areas.{place_positions};
ghost use Rattle.bench.specs.Update.{vec3_unless_pinned};
ghost use Rattle.bench.specs.Step.{positions_after};

use crate::areas::{DrapePart, PinPart};
use crate::pinned;
use matrix::area;
use matrix::area::Work;
use matrix::rows::Row;
use matrix::vertices::Vertices;
use vectors::finite::Finite;
use vectors::vec3::Vec3;

// The position of vertex i after the step.
fn position_after(work: &Work, drape: &DrapePart, pins: &PinPart, i: usize) -> Vec3
    requires { i < 32 }
    ensures { result ≡ vec3_unless_pinned pins.now (4 * i) (row3 drape.now (3 * i)) (row3 work.now (area.place_positions + 3 * i)) }
{
    let p = Vec3::load(drape, 3 * i);
    let c = Vec3::load(work, area::POSITIONS + 3 * i);
    pinned::vec3_unless_pinned(pins, i, p, c)
}

// Whether the positions after the step are finite.
#[tactic(auto, unfolding(matrix::specs::System::every, matrix::specs::Parts::table, crate::specs::Step::positions_after))]
pub(crate) fn positions_are_finite(
    work: &Work,
    drape: &DrapePart,
    pins: &PinPart,
    n: Vertices,
) -> bool
    ensures { result ≡ every is_finite (flat3 (positions_after n.count pins.now drape.now (rows3 work.now area.place_positions n.count))) }
{
    (0..n.count).all(|i| position_after(work, drape, pins, i).is_finite())
}

// The positions after the step become those of the drape. Such a loop stands in five functions: a closure
// for what is stored would have to read the area that is written.
#[tactic(auto, unfolding(crate::specs::Step::positions_after))]
pub(crate) fn store_positions(drape: &mut DrapePart, work: &Work, pins: &PinPart, n: Vertices)
    ensures { drape.new ≡ put drape.old place_positions (flat3 (positions_after n.count pins.now drape.old (rows3 work.now area.place_positions n.count))) }
{
    for i in 0..n.count {
        position_after(work, drape, pins, i).store(drape, 3 * i);
    }
}
