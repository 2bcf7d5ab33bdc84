// The layers that refuse.
#[derive(Clone, Copy, PartialEq, Eq, Debug)]
pub enum Layer {
    Reader,
    Frame,
    Labels,
    Oracle,
    Job,
}
