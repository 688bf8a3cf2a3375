// The least turn that takes one unit vector to another, applied to a third.
ghost use Rattle.std.specs.Prelude.{◌≡◌};
ghost use Rattle.vectors.specs.Rotation.{rotated_of};

use crate::vec3;
use crate::vec3::Vec3;

// v turned as the unit vector a turns into the unit vector b. Where the two are opposite there is
// no least turn, and 1 + dot(a, b) is 0.
#[tactic(auto, unfolding(crate::specs::Rotation::rotated_of))]
pub fn rotated(a: Vec3, b: Vec3, v: Vec3) -> Vec3
    ensures { result ≡ rotated_of a b v }
{
    let n = vec3::cross(a, b);
    let c = vec3::dot(a, b);
    let m = vec3::cross(n, v);
    let k = vec3::dot(n, v) / (1.0 + c);
    Vec3 {
        x: c * v.x + m.x + n.x * k,
        y: c * v.y + m.y + n.y * k,
        z: c * v.z + m.z + n.z * k,
    }
}
