// Hubs and tables of labels: what they are and what holds of them.
#![tactic(auto)]

pub mod entry;
pub mod laws;
pub mod meeting;
