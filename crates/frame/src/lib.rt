// Frames: ducts added one by one, then closed, with the neighbours of each place.
#![tactic(auto)]

pub mod arc;
mod checks;
pub mod closed;
pub mod duct;
pub mod fault;
pub mod frame;
mod laying;
pub mod open;
pub mod order;
pub mod refusals;
mod scan;
