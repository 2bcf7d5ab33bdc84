// The worked example, and what is made of it.
use anyhow::anyhow;
use frame::frame::{ClosedFrame, OpenFrame};
use heap::queue::Heap;
use heap::rank::RankEntry;
use heap::search::SearchEntry;
use ranking::rank::rank;
use search::plain::PlainOracle;
use search::record::Record;
use std::alloc::Global;
use std::rc::Rc;
use ways::row::Row;

const DUCTS: [Row; 5] = [
    Row {
        first: 0,
        second: 1,
        length: 300,
    },
    Row {
        first: 1,
        second: 2,
        length: 200,
    },
    Row {
        first: 2,
        second: 3,
        length: 400,
    },
    Row {
        first: 0,
        second: 3,
        length: 1000,
    },
    Row {
        first: 3,
        second: 4,
        length: 150,
    },
];

// Five places and five ducts.
pub(crate) fn worked_frame(heap: Global) -> anyhow::Result<ClosedFrame> {
    let mut frame = OpenFrame::new(heap, 5)?;
    frame
        .begin(5)
        .map_err(|_| anyhow!("the frame refuses its places"))?;
    for row in DUCTS {
        frame
            .add(row)
            .map_err(|_| anyhow!("the frame refuses a duct"))?;
    }
    Ok(frame.close())
}

// The places, most ducts first.
pub(crate) fn ranking(heap: Global, frame: &ClosedFrame) -> anyhow::Result<Vec<u32>> {
    let places = frame.places() as usize;
    let mut order = Vec::from_elem(heap, 0u32, places)?;
    let mut queue: Heap<RankEntry> = Heap::new(heap, places)?;
    rank(frame, &mut order, &mut queue).map_err(|_| anyhow!("the ranking finds no room"))?;
    Ok(order)
}

// A plain oracle with all the memory that it wants.
pub(crate) fn plain_oracle(heap: Global, frame: Rc<ClosedFrame>) -> anyhow::Result<PlainOracle> {
    let records = Vec::from_elem(heap, Record::default(), frame.places() as usize)?;
    let queue: Heap<SearchEntry> = Heap::new(heap, 2 * frame.len() + 1)?;
    Ok(PlainOracle::new(frame, records, queue))
}
