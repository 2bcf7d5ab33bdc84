// What a table of labels refuses with.
#[derive(Clone, Copy, PartialEq, Eq, Debug)]
pub enum LabelsFault {
    // 13: the width is outside 1 to 4,096.
    Width,
    // 31: rows of so many entries in all are needed.
    Rows { needed: u32 },
    // 31: so many counts are needed.
    Counts { needed: u32 },
    // 31: an order of so many places is needed.
    Places { needed: u32 },
    // 31: so many records are needed.
    Records { needed: u32 },
    // 31: room for so many heap entries is needed.
    Entries { needed: u32 },
    // 17: the order repeats a place or leaves the frame, at this position first.
    Order { position: u32 },
    // 36: some label is longer than the width.
    TooLong { width: u32 },
    // 37: the table is not right.
    NotRight,
}
