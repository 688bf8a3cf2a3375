// The working copy that a dynamic step begins with.
ghost use Rattle.std.specs.Prelude.{◌≡◌, ◌+◌, ◌*◌, ◌<◌};
ghost use Rattle.matrix.specs.Parts.{put};
ghost use Rattle.matrix.specs.Rows.{row3, flat3};
ghost use Rattle.matrix.specs.Area.{place_positions};
ghost use Rattle.bench.specs.Areas.{place_velocities, place_working_copy};
ghost use Rattle.bench.specs.Step.{predicted, predicted_vec3, predicted_copy};

use crate::areas;
use crate::areas::{DrapePart, PinPart};
use matrix::area::Work;
use matrix::rows::Row;
use matrix::vertices::Vertices;
use matrix::{area, pins};
use vectors::vec3::Vec3;

// A number moved for the time dt with its velocity; a pinned one stays in the working copy.
#[tactic(auto, unfolding(crate::specs::Step::predicted))]
fn predicted(dt: f64, pin: u8, position: f64, velocity: f64, copy: f64) -> f64
    ensures { result ≡ predicted dt pin position velocity copy }
{
    pins::unless_pinned(pin, copy, position + dt * velocity)
}

// The three numbers of vertex i, each by `predicted`; `vertex_velocity` has another formula of other inputs.
fn predicted_vertex(drape: &DrapePart, pins: &PinPart, dt: f64, i: usize) -> Vec3
    requires { i < 32 }
    ensures { result ≡ predicted_vec3 dt pins.now (4 * i) (row3 drape.now (3 * i)) (row3 drape.now (place_velocities + 3 * i)) (row3 drape.now (place_working_copy + 3 * i)) }
{
    let p = Vec3::load(drape, 3 * i);
    let v = Vec3::load(drape, areas::VELOCITIES + 3 * i);
    let c = Vec3::load(drape, areas::WORKING_COPY + 3 * i);
    let at = 4 * i;
    Vec3 {
        x: predicted(dt, pins[at], p.x, v.x, c.x),
        y: predicted(dt, pins[at + 1], p.y, v.y, c.y),
        z: predicted(dt, pins[at + 2], p.z, v.z, c.z),
    }
}

// The predicted numbers of n vertices become the staged positions.
#[tactic(auto, unfolding(crate::specs::Step::predicted_copy))]
pub(crate) fn predict(work: &mut Work, drape: &DrapePart, pins: &PinPart, n: Vertices, dt: f64)
    ensures { work.new ≡ put work.old place_positions (flat3 (predicted_copy dt n.count pins.now drape.now)) }
{
    for i in 0..n.count {
        predicted_vertex(drape, pins, dt, i).store(work, area::POSITIONS + 3 * i);
    }
}
