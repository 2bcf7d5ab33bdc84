// The memory that building and opening are given.

// How many entries, counts, places in order, records and heap entries there are.
#[derive(Clone, Copy, PartialEq, Eq, Debug)]
pub struct Sizes {
    pub rows: usize,
    pub counts: usize,
    pub order: usize,
    pub records: usize,
    pub entries: usize,
}
