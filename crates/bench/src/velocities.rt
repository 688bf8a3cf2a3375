// The velocities that a dynamic step leaves.
ghost use Rattle.std.specs.Prelude.{◌≡◌, ◌+◌, ◌*◌, ◌<◌};
ghost use Rattle.matrix.specs.Parts.{put};
ghost use Rattle.matrix.specs.Rows.{row3, rows3, flat3};
ghost use Rattle.matrix.specs.Area.{place_positions};
ghost use Rattle.matrix.specs.Area as area;
ghost use Rattle.bench.specs.Areas.{place_velocities};
ghost use Rattle.bench.specs.Step.{velocity_after, velocity_vec3, velocities_after};

use crate::areas;
use crate::areas::{DrapePart, PinPart};
use matrix::area::Work;
use matrix::rows::Row;
use matrix::vertices::Vertices;
use matrix::{area, pins};
use vectors::vec3::Vec3;

// The way from the position to the working copy, over the time dt; a pinned velocity is kept.
#[tactic(auto, unfolding(crate::specs::Step::velocity_after))]
fn velocity_after(dt: f64, pin: u8, velocity: f64, copy: f64, position: f64) -> f64
    ensures { result ≡ velocity_after dt pin velocity copy position }
{
    pins::unless_pinned(pin, velocity, (copy - position) / dt)
}

// The velocity of vertex i, whose working copy is `copy`; `predicted_vertex` has another formula of other
// inputs.
fn vertex_velocity(drape: &DrapePart, pins: &PinPart, copy: Vec3, dt: f64, i: usize) -> Vec3
    requires { i < 32 }
    ensures { result ≡ velocity_vec3 dt pins.now (4 * i) (row3 drape.now (place_velocities + 3 * i)) copy (row3 drape.now (3 * i)) }
{
    let p = Vec3::load(drape, 3 * i);
    let v = Vec3::load(drape, areas::VELOCITIES + 3 * i);
    let at = 4 * i;
    Vec3 {
        x: velocity_after(dt, pins[at], v.x, copy.x, p.x),
        y: velocity_after(dt, pins[at + 1], v.y, copy.y, p.y),
        z: velocity_after(dt, pins[at + 2], v.z, copy.z, p.z),
    }
}

// The velocities of n vertices, whose working copy is the staged positions, are staged.
#[tactic(auto, unfolding(crate::specs::Step::velocities_after))]
pub(crate) fn stage_velocities(
    work: &mut Work,
    drape: &DrapePart,
    pins: &PinPart,
    n: Vertices,
    dt: f64,
)
    ensures { work.new ≡ put work.old area.place_velocities (flat3 (velocities_after dt n.count pins.now drape.now (rows3 work.old place_positions n.count))) }
{
    for i in 0..n.count {
        let c = Vec3::load(work, area::POSITIONS + 3 * i);
        vertex_velocity(drape, pins, c, dt, i).store(work, area::VELOCITIES + 3 * i);
    }
}
