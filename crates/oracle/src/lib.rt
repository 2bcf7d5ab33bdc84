// Distance oracles: what they promise, the empty one, and a walk that rests on the promise alone.
// What a call leaves as it was is said of each call: no type relates what was to what is.
#![tactic(auto)]

pub mod ask;
pub mod empty;
pub mod fault;
pub mod laws;
pub mod refusals;
pub mod step;
pub mod traits;
pub mod walk;
