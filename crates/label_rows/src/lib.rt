// What the rows of a table of labels tell.
#![tactic(auto)]

pub mod merge;
