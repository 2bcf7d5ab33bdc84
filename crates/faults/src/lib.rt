// What every refusal tells: its number, the layer that refused, and the spot.
#![tactic(auto)]

pub mod layer;
pub mod refusal;
