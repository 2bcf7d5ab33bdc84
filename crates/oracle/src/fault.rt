// What an oracle refuses with.
#[derive(Clone, Copy, PartialEq, Eq, Debug)]
pub enum OracleFault {
    // 13: a number of the call, counted from 1, is outside its limit.
    Limit { which: u32 },
    // 14: a duct's ends are equal.
    EqualEnds { end: u32 },
    // 15: a place is not below the number of places.
    NoPlace { place: u32 },
    // 31: so many records are needed.
    Records { needed: u32 },
    // 31: room for so many heap entries is needed.
    Entries { needed: u32 },
}
