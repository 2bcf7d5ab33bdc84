// The search for distances over a closed frame, and the oracle that asks it.
// What a call leaves as it was is said of each call: no type relates what was to what is.
#![tactic(auto)]

pub mod asking;
mod dijkstra;
pub mod making;
mod needs;
pub mod plain;
pub mod record;
mod scan;
pub mod search;
