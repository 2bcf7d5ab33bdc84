// What an oracle keeps of a place: what a search knows of it, and whether it is in focus.
#[derive(Clone, Copy, PartialEq, Eq, Debug, Default)]
pub struct Record {
    // The least length of a way that the search has found.
    pub distance: Option<u32>,
    // No shorter way can come. A mark beside the distance: searches ask for one or the other, and an enum of both would be matched at each.
    pub settled: bool,
    pub focused: bool,
}
