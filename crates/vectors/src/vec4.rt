// Vectors of four numbers: three of a position and one of a twist.
ghost use Rattle.std.specs.Prelude.{◌≡◌};
ghost use Rattle.vectors.specs.Vec4.{vec4_add, vec4_scale, vec4_dot, vec4_from_vec3};

use crate::vec3::Vec3;
use std::ops::{Add, Mul};

#[derive(Clone, Copy, Default)]
pub struct Vec4 {
    pub x: f64,
    pub y: f64,
    pub z: f64,
    pub w: f64,
}

impl Add for Vec4 {
    type Output = Vec4;

    ghost add_gives = { λ a b r. r ≡ vec4_add a b };

    #[tactic(auto, unfolding(crate::specs::Vec4::vec4_add))]
    fn add(self, b: Vec4) -> Vec4 {
        Vec4 {
            x: self.x + b.x,
            y: self.y + b.y,
            z: self.z + b.z,
            w: self.w + b.w,
        }
    }
}

impl Mul<f64> for Vec4 {
    type Output = Vec4;

    ghost mul_gives = { λ a s r. r ≡ vec4_scale a s };

    #[tactic(auto, unfolding(crate::specs::Vec4::vec4_scale))]
    fn mul(self, s: f64) -> Vec4 {
        Vec4 {
            x: s * self.x,
            y: s * self.y,
            z: s * self.z,
            w: s * self.w,
        }
    }
}

// The sum goes upward from +0, which that of `vec3::dot` does not.
#[tactic(auto, unfolding(crate::specs::Vec4::vec4_dot))]
pub fn dot(a: Vec4, b: Vec4) -> f64
    ensures { result ≡ vec4_dot a b }
{
    0.0 + a.x * b.x + a.y * b.y + a.z * b.z + a.w * b.w
}

// No `From`: of two values, by the Rust's name.
#[tactic(auto, unfolding(crate::specs::Vec4::vec4_from_vec3))]
pub fn from_vec3(v: Vec3, w: f64) -> Vec4
    ensures { result ≡ vec4_from_vec3 v w }
{
    Vec4 {
        x: v.x,
        y: v.y,
        z: v.z,
        w,
    }
}
