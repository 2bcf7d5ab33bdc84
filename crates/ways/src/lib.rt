// Ducts, the ways over them and their distances: what every other crate means by these words.
#![tactic(auto)]

pub mod few;
pub mod laws;
pub mod lesser;
pub mod near;
pub mod places;
pub mod row;
