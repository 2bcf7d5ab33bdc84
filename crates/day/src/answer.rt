// What the calls of a day are answered.
use job::fault::JobFault;
use oracle::fault::OracleFault;
use plan::trunk::Trunk;
use ways::row::Row;

// A laid trunk: its start, number of ducts and weight, and its ducts as they were laid.
#[derive(Drop)]
pub struct Laid {
    pub trunk: Trunk,
    pub ducts: Vec<Row>,
}

#[derive(Drop)]
pub enum Answer {
    // The answer to an add or a drop.
    Job(Result<(), JobFault>),
    // The answer to a plan.
    Planned(Result<Laid, JobFault>),
    // The answer to a place that comes into focus.
    Focused(Result<(), OracleFault>),
    // The focus is empty.
    Cleared,
}
