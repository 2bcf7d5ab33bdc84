// The job: which fittings stand, how they are added and dropped, and what that means over every day of calls.
#![tactic(auto)]

pub mod call;
mod changes;
pub mod fault;
pub mod fitting;
pub mod job;
pub mod laws;
mod listing;
mod marks;
mod places;
mod reads;
pub mod refusals;
#[cfg(test)]
mod tests;
