// One way along a duct: from a place to its other end, with the duct's number and length.
#[derive(Clone, Copy, PartialEq, Eq, PartialOrd, Ord, Debug)]
pub struct Arc {
    pub from: u32,
    pub to: u32,
    pub duct: u32,
    pub length: u32,
}
