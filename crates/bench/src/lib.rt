// The bench: six seats, each empty or with one strand, in areas that the caller lends.
#![tactic(auto)]

pub mod answers;
pub mod areas;
mod asked;
mod entry;
pub mod given;
pub mod load;
pub mod look;
mod parts;
mod picked;
pub mod pin;
mod pinned;
mod positions;
mod prediction;
pub mod refusal;
mod rod3_darboux;
pub mod seats;
mod step;
pub mod steps;
mod strands;
pub mod unload;
mod velocities;
