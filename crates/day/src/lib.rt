// The plan of a job, and days of calls over one oracle, with the law of planning for every one of them.
// What a call leaves as it was is said of each call: no type relates what was to what is.
#![tactic(auto)]

pub mod answer;
pub mod planning;
pub mod running;
