// The table of labels: its memory, its order, and how it is built.
// What a call leaves as it was is said of each call: no type relates what was to what is.
#![tactic(auto)]

pub mod build;
pub mod fault;
mod filling;
mod laying;
pub mod memory;
pub mod memory_check;
mod neighbour;
mod order;
pub mod record;
pub mod refusals;
mod round;
mod searching;
mod table;
mod visit;
