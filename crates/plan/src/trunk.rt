// What is told of a trunk: the place where it was begun, the number of its ducts, and its weight.
#[derive(Clone, Copy, PartialEq, Eq, Debug)]
pub struct Trunk {
    pub start: u32,
    pub ducts: u32,
    pub weight: u32,
}
