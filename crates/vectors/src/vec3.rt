// Vectors of three numbers.
ghost use Rattle.std.specs.Prelude.{◌≡◌};
ghost use Rattle.vectors.specs.Vec3.{vec3_add, vec3_sub, vec3_scale, vec3_add_three, vec3_dot, vec3_norm, vec3_normalize, vec3_cross, vec3_orthogonalize};
ghost use Rattle.vectors.specs.Mat3.{vec3_times_mat3};

use crate::mat3::Mat3;
use crate::sum;
use std::ops::{Add, Mul, Sub};

#[derive(Clone, Copy, Default)]
pub struct Vec3 {
    pub x: f64,
    pub y: f64,
    pub z: f64,
}

impl Add for Vec3 {
    type Output = Vec3;

    ghost add_gives = { λ a b r. r ≡ vec3_add a b };

    #[tactic(auto, unfolding(crate::specs::Vec3::vec3_add))]
    fn add(self, b: Vec3) -> Vec3 {
        Vec3 {
            x: self.x + b.x,
            y: self.y + b.y,
            z: self.z + b.z,
        }
    }
}

impl Sub for Vec3 {
    type Output = Vec3;

    ghost sub_gives = { λ a b r. r ≡ vec3_sub a b };

    #[tactic(auto, unfolding(crate::specs::Vec3::vec3_sub))]
    fn sub(self, b: Vec3) -> Vec3 {
        Vec3 {
            x: self.x - b.x,
            y: self.y - b.y,
            z: self.z - b.z,
        }
    }
}

impl Mul<f64> for Vec3 {
    type Output = Vec3;

    ghost mul_gives = { λ a s r. r ≡ vec3_scale a s };

    #[tactic(auto, unfolding(crate::specs::Vec3::vec3_scale))]
    fn mul(self, s: f64) -> Vec3 {
        Vec3 {
            x: s * self.x,
            y: s * self.y,
            z: s * self.z,
        }
    }
}

#[tactic(auto, unfolding(crate::specs::Vec3::vec3_add_three))]
pub fn add_three(a: Vec3, b: Vec3, c: Vec3) -> Vec3
    ensures { result ≡ vec3_add_three a b c }
{
    sum::add_three(a, b, c)
}

// No trait with `vec4::dot`: document 01 sums that one from +0, and this one from its first product.
#[tactic(auto, unfolding(crate::specs::Vec3::vec3_dot))]
pub fn dot(a: Vec3, b: Vec3) -> f64
    ensures { result ≡ vec3_dot a b }
{
    a.x * b.x + a.y * b.y + a.z * b.z
}

#[tactic(auto, unfolding(crate::specs::Vec3::vec3_norm))]
pub fn norm(v: Vec3) -> f64
    ensures { result ≡ vec3_norm v }
{
    roots::sqrt(dot(v, v))
}

#[tactic(auto, unfolding(crate::specs::Vec3::vec3_normalize))]
pub fn normalize(v: Vec3) -> Vec3
    ensures { result ≡ vec3_normalize v }
{
    v * (1.0 / norm(v))
}

#[tactic(auto, unfolding(crate::specs::Vec3::vec3_cross))]
pub fn cross(a: Vec3, b: Vec3) -> Vec3
    ensures { result ≡ vec3_cross a b }
{
    Vec3 {
        x: a.y * b.z - a.z * b.y,
        y: a.z * b.x - a.x * b.z,
        z: a.x * b.y - a.y * b.x,
    }
}

// What is left of f without its part along v.
#[tactic(auto, unfolding(crate::specs::Vec3::vec3_orthogonalize))]
pub fn orthogonalize(v: Vec3, f: Vec3) -> Vec3
    ensures { result ≡ vec3_orthogonalize v f }
{
    let t = dot(v, f) / dot(v, v);
    f - v * t
}

// The row vector q times the block a.
#[tactic(auto, unfolding(crate::specs::Mat3::vec3_times_mat3))]
pub fn mult_mat3_array_of_array(q: Vec3, a: Mat3) -> Vec3
    ensures { result ≡ vec3_times_mat3 q a }
{
    add_three(a.r0 * q.x, a.r1 * q.y, a.r2 * q.z)
}
