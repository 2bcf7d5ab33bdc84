// What a frame takes and refuses, and the neighbours of a place.
use faults::layer::Layer;
use faults::refusal::Refusal;
use frame::arc::Arc;
use frame::duct::Duct;
use frame::fault::FrameFault;
use frame::frame::OpenFrame;
use frame::order::compare;
use std::cmp::Ordering;
use std::test::Fail;
use ways::row::Row;

fn row(first: u32, second: u32, length: u32) -> Row {
    Row {
        first,
        second,
        length,
    }
}

#[test]
fn lengths(rt: HostRuntime) -> Result<(), Fail> {
    let mut open = OpenFrame::new(rt.alloc(), 2)?;
    open.begin(3)?;
    assert_eq!(rt; open.add(row(0, 1, 0)), Err(FrameFault::Length));
    assert_eq!(rt; open.add(row(0, 1, 1_000_001)), Err(FrameFault::Length));
    assert_eq!(rt; open.add(row(0, 1, 1)), Ok(()));
    assert_eq!(rt; open.add(row(1, 2, 1_000_000)), Ok(()));
    Ok(())
}

#[test]
fn order(rt: HostRuntime) -> Result<(), Fail> {
    let mut open = OpenFrame::new(rt.alloc(), 1)?;
    open.begin(3)?;
    assert_eq!(rt;
        open.add(row(4, 3, 5)),
        Err(FrameFault::NoPlace { place: 4 })
    );
    assert_eq!(rt; open.add(row(2, 1, 5)), Err(FrameFault::Ends { first: 2 }));
    open.add(row(0, 1, 5))?;
    assert_eq!(rt; open.add(row(7, 7, 0)), Err(FrameFault::Length));
    assert_eq!(rt;
        open.add(row(7, 7, 5)),
        Err(FrameFault::NoRoom { needed: 2 })
    );
    Ok(())
}

#[test]
fn emptied(rt: HostRuntime) -> Result<(), Fail> {
    let mut open = OpenFrame::new(rt.alloc(), 20_000)?;
    assert_eq!(rt; open.begin(4097), Err(FrameFault::Places));
    open.begin(4096)?;
    open.add(row(0, 4095, 5))?;
    assert_eq!(rt;
        open.add(row(0, 4095, 6)),
        Err(FrameFault::Ends { first: 0 })
    );
    open.empty();
    assert_eq!(rt;
        open.add(row(0, 1, 5)),
        Err(FrameFault::NoPlace { place: 0 })
    );
    assert_eq!(rt; (open.room(), open.close().len()), (16_384, 0));
    Ok(())
}

#[test]
fn neighbours(rt: HostRuntime) -> Result<(), Fail> {
    let mut open = OpenFrame::new(rt.alloc(), 5)?;
    open.begin(5)?;
    for duct in [
        row(0, 1, 300),
        row(1, 2, 200),
        row(2, 3, 400),
        row(0, 3, 1000),
        row(3, 4, 150),
    ] {
        open.add(duct)?;
    }
    let closed = open.close();
    assert_eq!(rt; closed.neighbours(5).len(), 0);
    let near = closed.neighbours(3);
    assert!(rt; near.len() == 3);
    assert_eq!(rt; (near[0].to, near[1].to, near[2].to), (0, 2, 4));
    Ok(())
}

#[test]
fn ducts(rt: HostRuntime) -> Result<(), Fail> {
    let lawful = row(1, 2, 1_000_000);
    let duct = Duct::try_from(lawful)?;
    assert_eq!(rt; (duct.first(), duct.second()), (1, 2));
    assert_eq!(rt; Row::from(duct), lawful);
    assert_eq!(rt; duct.to_string(rt.alloc())?.as_str(), "1-2 1000000 mm");
    assert_eq!(rt; Duct::try_from(row(2, 2, 0)), Err(FrameFault::Length));
    assert_eq!(rt;
        Duct::try_from(row(2, 2, 5)),
        Err(FrameFault::Ends { first: 2 })
    );
    Ok(())
}

#[test]
fn arcs_compare(rt: HostRuntime) {
    let arc = |from, to, duct, length| Arc {
        from,
        to,
        duct,
        length,
    };
    assert_eq!(rt;
        compare(&arc(0, 3, 3, 1000), &arc(1, 0, 0, 300)),
        Ordering::Less
    );
    assert_eq!(rt;
        compare(&arc(0, 3, 3, 1000), &arc(0, 1, 0, 300)),
        Ordering::Greater
    );
    assert_eq!(rt;
        compare(&arc(0, 1, 2, 300), &arc(0, 1, 0, 300)),
        Ordering::Greater
    );
    assert_eq!(rt;
        compare(&arc(0, 1, 0, 300), &arc(0, 1, 0, 301)),
        Ordering::Less
    );
    assert_eq!(rt;
        compare(&arc(0, 1, 0, 300), &arc(0, 1, 0, 300)),
        Ordering::Equal
    );
}

// The number and the spot of a fault.
fn told(fault: FrameFault) -> (u32, u64) {
    (fault.number(), fault.spot())
}

#[test]
fn numbers(rt: HostRuntime) {
    assert_eq!(rt; told(FrameFault::Places), (13, 1));
    assert_eq!(rt; told(FrameFault::Length), (13, 3));
    assert_eq!(rt; told(FrameFault::NoRoom { needed: 7 }), (31, 7));
    assert_eq!(rt; told(FrameFault::NoPlace { place: 9 }), (15, 9));
    assert_eq!(rt; told(FrameFault::Ends { first: 4 }), (14, 4));
    assert_eq!(rt; FrameFault::Places.layer(), Layer::Frame);
}
