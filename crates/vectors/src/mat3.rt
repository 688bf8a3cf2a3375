// Blocks of three by three numbers, held by rows: entry A[i][j] is row i, column j.
ghost use Rattle.std.specs.Prelude.{◌≡◌};
ghost use Rattle.vectors.specs.Mat3.{mat3_add, mat3_add_three, mat3_scale, mat3_identity, mat3_diagonal, mat3_scaled_outer_product, mat3_projection};

use crate::sum;
use crate::vec3::Vec3;
use std::ops::{Add, Mul};

#[derive(Clone, Copy)]
pub struct Mat3 {
    pub r0: Vec3,
    pub r1: Vec3,
    pub r2: Vec3,
}

impl Add for Mat3 {
    type Output = Mat3;

    ghost add_gives = { λ a b r. r ≡ mat3_add a b };

    #[tactic(auto, unfolding(crate::specs::Mat3::mat3_add))]
    fn add(self, b: Mat3) -> Mat3 {
        Mat3 {
            r0: self.r0 + b.r0,
            r1: self.r1 + b.r1,
            r2: self.r2 + b.r2,
        }
    }
}

impl Mul<f64> for Mat3 {
    type Output = Mat3;

    ghost mul_gives = { λ a s r. r ≡ mat3_scale a s };

    #[tactic(auto, unfolding(crate::specs::Mat3::mat3_scale))]
    fn mul(self, s: f64) -> Mat3 {
        Mat3 {
            r0: self.r0 * s,
            r1: self.r1 * s,
            r2: self.r2 * s,
        }
    }
}

#[tactic(auto, unfolding(crate::specs::Mat3::mat3_add_three))]
pub fn add_three(a: Mat3, b: Mat3, c: Mat3) -> Mat3
    ensures { result ≡ mat3_add_three a b c }
{
    sum::add_three(a, b, c)
}

// No `From`: two of the from_* make a block of one vector, and the others take more values or none.
#[tactic(auto, unfolding(crate::specs::Mat3::mat3_identity))]
pub fn from_identity() -> Mat3
    ensures { result ≡ mat3_identity }
{
    from_diagonal(Vec3 {
        x: 1.0,
        y: 1.0,
        z: 1.0,
    })
}

#[tactic(auto, unfolding(crate::specs::Mat3::mat3_diagonal))]
pub fn from_diagonal(d: Vec3) -> Mat3
    ensures { result ≡ mat3_diagonal d }
{
    let zero = Vec3::default();
    Mat3 {
        r0: Vec3 { x: d.x, ..zero },
        r1: Vec3 { y: d.y, ..zero },
        r2: Vec3 { z: d.z, ..zero },
    }
}

// Row i, column j is (s * a_i) * b_j.
#[tactic(auto, unfolding(crate::specs::Mat3::mat3_scaled_outer_product))]
pub fn from_scaled_outer_product(s: f64, a: Vec3, b: Vec3) -> Mat3
    ensures { result ≡ mat3_scaled_outer_product s a b }
{
    Mat3 {
        r0: b * (s * a.x),
        r1: b * (s * a.y),
        r2: b * (s * a.z),
    }
}

// The projection onto the plane across the unit vector z.
#[tactic(auto, unfolding(crate::specs::Mat3::mat3_projection, crate::specs::Mat3::mat3_identity, crate::specs::Mat3::mat3_diagonal))]
pub fn from_projection_onto_plane(z: Vec3) -> Mat3
    ensures { result ≡ mat3_projection z }
{
    let e = from_identity();
    Mat3 {
        r0: e.r0 - z * z.x,
        r1: e.r1 - z * z.y,
        r2: e.r2 - z * z.z,
    }
}
