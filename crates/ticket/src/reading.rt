// Where a reading stands.
use crate::due::Due;
use frame::frame::OpenFrame;
use job::job::Job;

#[derive(Drop)]
pub struct Reading<'a> {
    // The number of the next line, from 1.
    pub at: u64,
    pub due: Due,
    // What the lines before it are read into.
    pub frame: &'a mut OpenFrame,
    pub job: &'a mut Job,
}
