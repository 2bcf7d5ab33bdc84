// An entry of a label: the rank of a hub, its distance, and the neighbour on the way to it.
#[derive(Clone, Copy, PartialEq, Eq, Debug, Default)]
pub struct Entry {
    pub rank: u32,
    pub distance: u32,
    pub neighbour: u32,
}
