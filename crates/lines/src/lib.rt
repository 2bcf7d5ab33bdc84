// The lines of a ticket: bytes to lines, lines to numbers, and back.
#![tactic(auto)]

pub mod cut;
pub mod fault;
pub mod laws;
pub mod line;
mod list;
mod numeral;
pub mod page;
pub mod read;
pub mod refusals;
pub mod write;
