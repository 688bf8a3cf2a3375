// Vectors and blocks by value, sine and cosine, and the turn of one unit vector into another. Each
// operation is the one that document 01 fixes, in its order.
#![tactic(auto)]

pub mod angle;
pub mod edge3;
pub mod finite;
pub mod mat3;
pub mod mat4;
pub mod rotation;
mod sum;
pub mod vec3;
pub mod vec4;
