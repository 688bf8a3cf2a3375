// Stretch: the energy of an edge by the difference of its length from the length at rest.
ghost use Rattle.std.specs.Prelude.{◌≡◌};
ghost use Rattle.elements.specs.Spring3.{stretch_block, stretch_of_length, wdwddw_squared_length_difference};

use vectors::mat3::Mat3;
use vectors::vec3::Vec3;
use vectors::{mat3, vec3};

// Energy w, its gradients at both ends, and two of the four blocks of second derivatives: `same` for
// an end with itself, `other` for one end with the other.
#[derive(Clone, Copy)]
pub struct Stretch {
    pub w: f64,
    pub dw0: Vec3,
    pub dw1: Vec3,
    pub same: Mat3,
    pub other: Mat3,
}

// The edge v has the length l; at rest it had edge_length_ini.
#[tactic(auto, unfolding(crate::specs::Spring3::stretch_block))]
fn stretch_block(stiffness: f64, v: Vec3, l: f64, edge_length_ini: f64) -> Mat3
    ensures { result ≡ stretch_block stiffness v l edge_length_ini }
{
    let mvv = mat3::from_scaled_outer_product(1.0, v, v);
    let t0 = stiffness * edge_length_ini / (l * l * l);
    let t1 = stiffness * (l - edge_length_ini) / l;
    mvv * t0 + mat3::from_identity() * t1
}

// The stretch of an edge by a length l that is given: its own, where that is known.
#[tactic(auto, unfolding(crate::specs::Spring3::stretch_of_length, crate::specs::Square::square))]
pub fn stretch_of_length(
    stiffness: f64,
    p0: Vec3,
    p1: Vec3,
    l: f64,
    edge_length_ini: f64,
) -> Stretch
    ensures { result ≡ stretch_of_length stiffness p0 p1 l edge_length_ini }
{
    let v = p0 - p1;
    let c = edge_length_ini - l;
    let m = stretch_block(stiffness, v, l, edge_length_ini);
    Stretch {
        w: 0.5 * stiffness * c * c,
        dw0: v * (-c * stiffness / l),
        dw1: v * (c * stiffness / l),
        same: m,
        other: m * -1.0,
    }
}

#[tactic(auto, unfolding(crate::specs::Spring3::wdwddw_squared_length_difference))]
pub fn wdwddw_squared_length_difference(
    stiffness: f64,
    p0: Vec3,
    p1: Vec3,
    edge_length_ini: f64,
) -> Stretch
    ensures { result ≡ wdwddw_squared_length_difference stiffness p0 p1 edge_length_ini }
{
    let l = vec3::norm(p0 - p1);
    stretch_of_length(stiffness, p0, p1, l, edge_length_ini)
}
