// What a line of a ticket says. A fitting's line is told in one way by the reader and in another to the writer.

use ways::few::Few;
use ways::row::Row;

// The first number of more than seven digits: in a line that is read it stands in place of all of them, but for a fitting's count.
pub const TOO_LONG: u32 = 10_000_000;

// The numbers of a list of any length: how many, the first 17 of them, and how many come before the first of more than seven digits.
#[derive(Clone, Copy)]
pub struct Listed {
    pub count: usize,
    pub front: Few<u32, 17>,
    pub short: usize,
}

// A fitting as it is read; its count is told up to 64 bits.
#[derive(Clone, Copy)]
pub struct ReadFitting {
    pub number: u32,
    pub count: u64,
    pub places: Listed,
}

// A fitting to be written; its count is that of its places.
#[derive(Clone, Copy)]
pub struct WrittenFitting<'a> {
    pub number: u32,
    pub places: &'a [u32],
}

#[derive(Clone, Copy)]
pub enum Line<F> {
    Places { n: u32 },
    Ducts { m: u32 },
    Duct(Row),
    Fittings { k: u32 },
    Fitting(F),
}
