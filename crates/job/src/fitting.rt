// What a job is made of.
use ways::few::Few;

// A group of places, of which a plan reaches one. Plan knows no fittings, and calls the same type its group.
pub type Fitting = Few<u32, 16>;

// How many places there are, and a word with one mark for each fitting that stands.
#[derive(Clone, Copy)]
pub struct Heading {
    pub(crate) places: u32,
    pub(crate) standing: u64,
}
