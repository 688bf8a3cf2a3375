// The frame of an edge after the edge has moved and the frame has twisted about it.
ghost use Rattle.std.specs.Prelude.{◌≡◌};
ghost use Rattle.elements.specs.Turned.{updated_rod_frame};

use vectors::vec3::Vec3;
use vectors::{angle, rotation, vec3};

// The new x axis, and 1 and the cosine of the angle by which the edge turned. Where that is near 0
// the edge has turned back on itself, and the axis means nothing.
#[derive(Clone, Copy)]
pub struct TurnedFrame {
    pub x: Vec3,
    pub one_plus_cosine: f64,
}

// The edge z0 becomes z0 + dz, and its frame, whose x axis is ux0, twists by dtheta. The twist comes
// first, then the least turn from the old edge to the new one.
#[tactic(auto, unfolding(crate::specs::Turned::updated_rod_frame))]
pub fn updated_rod_frame(ux0: Vec3, z0: Vec3, dz: Vec3, dtheta: f64) -> TurnedFrame
    ensures { result ≡ updated_rod_frame ux0 z0 dz dtheta }
{
    let uz0 = vec3::normalize(z0);
    let uz2 = vec3::normalize(z0 + dz);
    let uy0 = vec3::cross(uz0, ux0);
    let ux1 = ux0 * angle::cosine(dtheta) + uy0 * angle::sine(dtheta);
    TurnedFrame {
        x: rotation::rotated(uz0, uz2, ux1),
        one_plus_cosine: 1.0 + vec3::dot(uz0, uz2),
    }
}
