// Vectors of rows of four numbers and a matrix of blocks, in one flat area that the caller lends.
#![tactic(auto)]

pub mod area;
pub mod conjugate_gradient;
mod edges;
pub mod hair_system;
mod layout;
mod lists;
pub mod loads;
pub mod pins;
mod root_bound;
pub mod rows;
mod slice_of_array;
mod sparse_square;
pub mod system;
pub mod vertices;
