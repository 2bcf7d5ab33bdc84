// What building keeps of a place while it searches, and of the rank of the same number.

// How far a search came with a place.
#[derive(Clone, Copy, PartialEq, Eq, Debug, Default)]
pub enum Stage {
    // It waits in the heap, and a shorter way may come.
    #[default]
    Waiting,
    // The labels so far tell its distance.
    Cut,
    // It has the hub that the search is from.
    Hub,
}

// A mark of an earlier round counts as none, so that no round has to wipe them, as it would have to an Option of marks.
#[derive(Clone, Copy, PartialEq, Eq, Debug, Default)]
pub struct Record {
    // The order has the place.
    pub listed: bool,
    // The round that last came to the place, the least length of a way then, and how far it came.
    pub round: u32,
    pub distance: u32,
    pub stage: Stage,
    // The round whose source last had the hub of this rank, at this distance.
    pub laid_round: u32,
    pub laid: u32,
}
