// Trunks over groups of places, laid over any group oracle.
// The clause `same` stands at each function that moves the focus: an oracle's `kept` would say that the focus stays too.
// Each function that hands places to the oracle asks that they are its places: a struct that held them so would ask the same of its number of places.
#![tactic(auto)]

mod admit;
mod ask;
mod branch;
mod choose;
pub mod fault;
pub mod group;
mod grow;
pub mod laws;
pub mod lay;
mod light;
mod next;
mod reach;
pub mod trunk;
