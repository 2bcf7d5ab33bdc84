// What a frame refuses with.
#[derive(Clone, Copy, PartialEq, Eq, Debug)]
pub enum FrameFault {
    // 13: the number of places is outside 1 to 4,096.
    Places,
    // 13: the length is outside 1 to 1,000,000.
    Length,
    // 31: room for so many ducts is needed.
    NoRoom { needed: u32 },
    // 15: an end is not below the number of places.
    NoPlace { place: u32 },
    // 14: the first end is not below the second, or the two are joined already.
    Ends { first: u32 },
    // 31: room for so many places in order is needed.
    Order { needed: u32 },
    // 31: room for so many heap entries is needed.
    Entries { needed: u32 },
}
