// Answers and refusals on small frames.
use faults::layer::Layer;
use faults::refusal::Refusal;
use frame::frame::{ClosedFrame, OpenFrame};
use heap::queue::Heap;
use heap::search::SearchEntry;
use jumper::jumper::Jumper;
use oracle::fault::OracleFault;
use oracle::step::Step;
use oracle::traits::{DistanceOracle, GroupOracle};
use search::plain::PlainOracle;
use search::record::Record;
use std::alloc::Global;
use std::process::Abort;
use std::rc::Rc;
use std::test::Fail;
use ways::near::Near;
use ways::row::Row;

const WORKED: [Row; 5] = [
    Row {
        first: 0,
        second: 1,
        length: 300,
    },
    Row {
        first: 1,
        second: 2,
        length: 200,
    },
    Row {
        first: 2,
        second: 3,
        length: 400,
    },
    Row {
        first: 0,
        second: 3,
        length: 1000,
    },
    Row {
        first: 3,
        second: 4,
        length: 150,
    },
];

const PARTS: [Row; 3] = [
    Row {
        first: 0,
        second: 1,
        length: 7,
    },
    Row {
        first: 1,
        second: 2,
        length: 7,
    },
    Row {
        first: 3,
        second: 4,
        length: 9,
    },
];

fn frame_of(
    rt: &impl Abort,
    heap: Global,
    places: u32,
    rows: &[Row],
) -> Result<Rc<ClosedFrame>, Fail> {
    let mut frame = OpenFrame::new(heap, 8)?;
    assert!(rt; frame.begin(places).is_ok());
    for row in rows {
        assert!(rt; frame.add(*row).is_ok());
    }
    Ok(Rc::new(heap, frame.close())?)
}

fn oracle_of(
    rt: &impl Abort,
    heap: Global,
    rows: &[Row],
    records: usize,
    room: usize,
) -> Result<PlainOracle, Fail> {
    let blank = Record {
        distance: None,
        settled: false,
        focused: true,
    };
    let frame = frame_of(rt, heap, 5, rows)?;
    let records = Vec::from_elem(heap, blank, records)?;
    let queue: Heap<SearchEntry> = Heap::new(heap, room)?;
    Ok(PlainOracle::new(frame, records, queue))
}

#[test]
fn a_detour_is_shorter(rt: HostRuntime) -> Result<(), Fail> {
    let mut o = oracle_of(&rt, rt.alloc(), &WORKED, 5, 11)?;
    assert_eq!(rt; o.distance(0, 3), Ok(Some(900)));
    assert_eq!(rt;
        o.step(0, 3),
        Ok(Step::Next {
            place: 1,
            length: 300,
        })
    );
    assert_eq!(rt; o.step(2, 2), Ok(Step::Here));
    assert_eq!(rt; o.distance(7, 9), Err(OracleFault::NoPlace { place: 7 }));
    assert_eq!(rt; o.step(0, 9), Err(OracleFault::NoPlace { place: 9 }));
    Ok(())
}

#[test]
fn two_parts_have_no_way(rt: HostRuntime) -> Result<(), Fail> {
    let mut o = oracle_of(&rt, rt.alloc(), &PARTS, 6, 8)?;
    assert_eq!(rt; o.distance(0, 4), Ok(None));
    assert_eq!(rt; o.step(0, 4), Ok(Step::NoWay));
    assert_eq!(rt; o.nearest(1), Ok(None), "nothing is in focus at first");
    assert!(rt; o.focus(2).is_ok());
    assert!(rt; o.focus(0).is_ok());
    assert_eq!(rt;
        o.nearest(1),
        Ok(Some(Near {
            place: 0,
            distance: 7,
        }))
    );
    assert_eq!(rt; o.nearest(4), Ok(None));
    o.clear();
    assert_eq!(rt; o.nearest(1), Ok(None));
    Ok(())
}

#[test]
fn too_little_memory_is_no_places(rt: HostRuntime) -> Result<(), Fail> {
    let few = oracle_of(&rt, rt.alloc(), &WORKED, 4, 11)?;
    assert_eq!(rt; few.check(), Err(OracleFault::Records { needed: 5 }));
    let mut narrow = oracle_of(&rt, rt.alloc(), &WORKED, 5, 10)?;
    assert_eq!(rt; narrow.check(), Err(OracleFault::Entries { needed: 11 }));
    assert_eq!(rt; narrow.places(), 0);
    assert_eq!(rt;
        narrow.distance(0, 0),
        Err(OracleFault::NoPlace { place: 0 })
    );
    let fault = OracleFault::Entries { needed: 11 };
    assert_eq!(rt; fault.number(), 31);
    assert_eq!(rt; fault.layer(), Layer::Oracle);
    assert_eq!(rt; fault.spot(), 11);
    Ok(())
}

#[test]
fn jumpers_pile(rt: HostRuntime) -> Result<(), Fail> {
    let plain = oracle_of(&rt, rt.alloc(), &WORKED, 5, 11)?;
    let mut pile = Jumper::new(Jumper::new(plain, 0, 4, 50), 3, 1, 10);
    assert!(rt; pile.check().is_ok());
    assert_eq!(rt; pile.distance(0, 3), Ok(Some(200)));
    assert_eq!(rt; pile.distance(1, 4), Ok(Some(160)));
    assert_eq!(rt;
        pile.step(1, 4),
        Ok(Step::Next {
            place: 3,
            length: 10,
        })
    );
    assert!(rt; pile.focus(0).is_ok());
    assert!(rt; pile.focus(2).is_ok());
    assert_eq!(rt;
        pile.nearest(3),
        Ok(Some(Near {
            place: 0,
            distance: 200,
        }))
    );
    Ok(())
}

#[test]
fn a_refused_jumper_is_not_there(rt: HostRuntime) -> Result<(), Fail> {
    let plain = oracle_of(&rt, rt.alloc(), &WORKED, 5, 11)?;
    let long = Jumper::new(plain, 9, 9, 1_000_001);
    assert_eq!(rt; long.check(), Err(OracleFault::Limit { which: 3 }));
    let outside = Jumper::new(long.into_below(), 9, 9, 5);
    assert_eq!(rt; outside.check(), Err(OracleFault::NoPlace { place: 9 }));
    let mut equal = Jumper::new(outside.into_below(), 2, 2, 5);
    assert_eq!(rt; equal.check(), Err(OracleFault::EqualEnds { end: 2 }));
    assert_eq!(rt; equal.distance(0, 3), Ok(Some(900)));
    Ok(())
}
