// Blocks of four by four numbers, held by columns: row i, column j is place i + 4 * j.
ghost use Rattle.std.specs.Prelude.{◌≡◌};
ghost use Rattle.vectors.specs.Mat4.{mat4_add, mat4_from_mat3};

use crate::mat3::Mat3;
use crate::vec4::Vec4;
use std::ops::Add;

#[derive(Clone, Copy, Default)]
pub struct Mat4 {
    pub c0: Vec4,
    pub c1: Vec4,
    pub c2: Vec4,
    pub c3: Vec4,
}

// Every entry is added, zeros too.
impl Add for Mat4 {
    type Output = Mat4;

    ghost add_gives = { λ a b r. r ≡ mat4_add a b };

    #[tactic(auto, unfolding(crate::specs::Mat4::mat4_add))]
    fn add(self, b: Mat4) -> Mat4 {
        Mat4 {
            c0: self.c0 + b.c0,
            c1: self.c1 + b.c1,
            c2: self.c2 + b.c2,
            c3: self.c3 + b.c3,
        }
    }
}

// The block m with zeros beside and below it, and w at place 15. No `From`: of two values, by the Rust's
// name.
#[tactic(auto, unfolding(crate::specs::Mat4::mat4_from_mat3))]
pub fn from_mat3_adding_w(m: Mat3, w: f64) -> Mat4
    ensures { result ≡ mat4_from_mat3 m w }
{
    Mat4 {
        c0: Vec4 {
            x: m.r0.x,
            y: m.r1.x,
            z: m.r2.x,
            w: 0.0,
        },
        c1: Vec4 {
            x: m.r0.y,
            y: m.r1.y,
            z: m.r2.y,
            w: 0.0,
        },
        c2: Vec4 {
            x: m.r0.z,
            y: m.r1.z,
            z: m.r2.z,
            w: 0.0,
        },
        c3: Vec4 {
            w,
            ..Vec4::default()
        },
    }
}
