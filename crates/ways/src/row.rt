// A row of duct memory: two places and a length in millimetres, as they come.
#[derive(Clone, Copy, PartialEq, Eq, Debug)]
pub struct Row {
    pub first: u32,
    pub second: u32,
    pub length: u32,
}
