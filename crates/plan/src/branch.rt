// The next branch of a trunk: from a chosen place to the trunk's nearest place. The shorter is the lesser, and of two as short that from the smaller place.
#[derive(Clone, Copy, PartialEq, Eq, PartialOrd, Ord)]
pub struct Branch {
    pub distance: u32,
    pub from: u32,
    pub to: u32,
}
