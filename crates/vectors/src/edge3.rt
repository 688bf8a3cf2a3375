// The length of an edge, and the one place that judges whether an edge has one to work with.
ghost use Rattle.std.specs.Prelude.{◌≡◌};
ghost use Rattle.vectors.specs.Edge.{acceptable, measured_of, edge_length};

use crate::finite::Finite;
use crate::vec3;
use crate::vec3::Vec3;

// A length, and whether the squared length that it is the root of was finite and above 0.
// No `Option`: document 01 uses the length where it is not acceptable, too.
#[derive(Clone, Copy)]
pub struct EdgeLength {
    pub value: f64,
    pub acceptable: bool,
}

// The judge of a squared length.
#[tactic(auto, unfolding(crate::specs::Edge::acceptable))]
fn accepts(squared: f64) -> bool
    ensures { result ≡ acceptable squared }
{
    Finite::is_finite(squared) & (0.0 < squared)
}

// The length of the edge v.
#[tactic(auto, unfolding(crate::specs::Edge::measured_of))]
pub fn measured(v: Vec3) -> EdgeLength
    ensures { result ≡ measured_of v }
{
    let squared = vec3::dot(v, v);
    EdgeLength {
        value: roots::sqrt(squared),
        acceptable: accepts(squared),
    }
}

// The length of the edge from p0 to p1.
#[tactic(auto, unfolding(crate::specs::Edge::edge_length))]
pub fn length(p0: Vec3, p1: Vec3) -> EdgeLength
    ensures { result ≡ edge_length p0 p1 }
{
    measured(p1 - p0)
}

// Whether the edge from p0 to p1 has a length to work with, which takes no root to tell.
#[tactic(auto, unfolding(crate::specs::Edge::edge_length, crate::specs::Edge::measured_of))]
pub fn is_acceptable(p0: Vec3, p1: Vec3) -> bool
    ensures { result ≡ (edge_length p0 p1).acceptable }
{
    let v = p1 - p0;
    accepts(vec3::dot(v, v))
}
