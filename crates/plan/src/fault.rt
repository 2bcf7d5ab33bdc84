// What a plan refuses with.
#[derive(Clone, Copy, PartialEq, Eq, Debug)]
pub enum PlanFault {
    // The number of groups is not 1 to 64.
    Count { groups: usize },
    // A place of a group is not below the oracle's number of places.
    NoPlace { place: u32 },
    // So many rows are needed for the trunk.
    Rows { needed: u32 },
    // No connected set touches every one of the groups.
    NoSet { groups: usize },
}
