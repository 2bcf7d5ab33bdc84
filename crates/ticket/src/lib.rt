// Tickets: bytes into a frame and the fittings of a job, and back.
// What a call leaves as it was is said of each call: no type relates what was to what is.
#![tactic(auto)]

mod checks;
pub mod due;
pub mod fault;
mod kinds;
pub mod read;
mod reading;
pub mod refusals;
pub mod write;
