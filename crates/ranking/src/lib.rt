// The ranking of a closed frame: its places by their number of ducts.
// What a call leaves as it was is said of each call: no type relates what was to what is.
#![tactic(auto)]

mod drain;
mod fill;
pub mod rank;
