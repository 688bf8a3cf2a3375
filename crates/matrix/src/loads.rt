// What a step adds to the assembled system before pins act: a spring from the picked vertex to its
// goal, and inertia.
ghost use Rattle.std.specs.Prelude.{◌≡◌, ◌<◌};
ghost use Rattle.matrix.specs.Rows.{rows3};
ghost use Rattle.matrix.specs.Area.{place_positions, after_vectors};
ghost use Rattle.matrix.specs.System.{system_at};
ghost use Rattle.matrix.specs.HairSystem.{vec3_at};
ghost use Rattle.matrix.specs.Loads.{pick_block, pulled, with_pull, with_pick, with_inertia};

use crate::area::Work;
use crate::rows::Row;
use crate::vertices::Vertices;
use crate::{area, system};
use vectors::mat4::Mat4;
use vectors::vec3::Vec3;
use vectors::vec4::Vec4;

// The spring's stiffness.
const PICK_STIFFNESS: f64 = 16.0;

// The stiffness on the three diagonals of positions, 0 elsewhere.
fn pick_block() -> Mat4
    ensures { result ≡ pick_block }
{
    system::diagonal(Vec4 {
        x: PICK_STIFFNESS,
        y: PICK_STIFFNESS,
        z: PICK_STIFFNESS,
        w: 0.0,
    })
}

// c added to the three numbers of a position; the twist's stays.
#[tactic(auto, unfolding(crate::specs::Loads::pulled))]
fn pulled(c: Vec3, g: Vec4) -> Vec4
    ensures { result ≡ pulled c g }
{
    Vec4 {
        x: g.x + c.x,
        y: g.y + c.y,
        z: g.z + c.z,
        ..g
    }
}

// c added to the gradient of vertex v.
fn pull(work: &mut Work, n: Vertices, v: usize, c: Vec3)
    requires v_lt_n { v < n.count }
    ensures work_after { system_at n.count work.new ≡ with_pull n.count v c (system_at n.count work.old) }
    ensures after_vectors_kept { after_vectors work.new ≡ after_vectors work.old }
{
    let at = area::R + 4 * v;
    let g = Vec4::load(work, at);
    pulled(c, g).store(work, at);
}

// Vertex v is pulled from its staged position to the goal.
pub fn add_pick(work: &mut Work, n: Vertices, v: usize, goal: Vec3)
    requires v_lt_n { v < n.count }
    ensures work_after { system_at n.count work.new ≡ with_pick n.count v (vec3_at (rows3 work.old place_positions n.count) v) goal (system_at n.count work.old) }
    ensures after_vectors_kept { after_vectors work.new ≡ after_vectors work.old }
{
    let p = Vec3::load(work, area::POSITIONS + 3 * v);
    let c = (p - goal) * PICK_STIFFNESS;
    pull(work, n, v, c);
    system::add_block(work, n, v, v, pick_block());
}

// 1 / (dt dt) on the diagonal of every vertex: positions only.
#[tactic(auto, unfolding(crate::specs::Loads::with_inertia))]
pub fn add_inertia(work: &mut Work, n: Vertices, dt: f64)
    ensures work_after { system_at n.count work.new ≡ with_inertia n.count dt (system_at n.count work.old) }
    ensures after_vectors_kept { after_vectors work.new ≡ after_vectors work.old }
{
    system::add_to_diagonals(work, n, 1.0 / (dt * dt));
}
