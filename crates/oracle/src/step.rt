// Where a way goes on.
#[derive(Clone, Copy, PartialEq, Eq, Debug)]
pub enum Step {
    // The place is the goal.
    Here,
    // No way leads to the goal.
    NoWay,
    // By the duct of this length to this place. Two numbers and no `Leg`: who steps takes them apart at once.
    Next { place: u32, length: u32 },
}
