// What two rows share: the rank of a hub, and the sum of its two distances.
#[derive(Clone, Copy, PartialEq, Eq, Debug)]
pub struct Meeting {
    pub rank: u32,
    pub sum: u64,
}
