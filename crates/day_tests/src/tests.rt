// Days on the worked example, answered call by call.
use day::answer::{Answer, Laid};
use day::running::run;
use frame::frame::OpenFrame;
use heap::queue::Heap;
use heap::search::SearchEntry;
use job::call::Call;
use job::fault::JobFault;
use jumper::jumper::Jumper;
use plan::trunk::Trunk;
use search::plain::PlainOracle;
use search::record::Record;
use std::alloc::Global;
use std::process::Abort;
use std::rc::Rc;
use std::test::Fail;
use ways::row::Row;

const WORKED: [Row; 5] = [
    Row {
        first: 0,
        second: 1,
        length: 300,
    },
    Row {
        first: 1,
        second: 2,
        length: 200,
    },
    Row {
        first: 2,
        second: 3,
        length: 400,
    },
    Row {
        first: 0,
        second: 3,
        length: 1000,
    },
    Row {
        first: 3,
        second: 4,
        length: 150,
    },
];

const NONE: Row = Row {
    first: 0,
    second: 0,
    length: 0,
};

fn oracle_of(
    rt: &impl Abort,
    heap: Global,
    places: u32,
    rows: &[Row],
) -> Result<PlainOracle, Fail> {
    let mut frame = OpenFrame::new(heap, 8)?;
    assert!(rt; frame.begin(places).is_ok());
    for row in rows {
        assert!(rt; frame.add(*row).is_ok());
    }
    let records = Vec::from_elem(heap, Record::default(), places as usize)?;
    let queue: Heap<SearchEntry> = Heap::new(heap, 2 * rows.len() + 1)?;
    Ok(PlainOracle::new(Rc::new(heap, frame.close())?, records, queue))
}

// Whether the answer is this trunk with these ducts.
fn is_laid(answer: Option<&Answer>, trunk: Trunk, ducts: &[Row]) -> bool {
    match answer {
        Some(Answer::Planned(Ok(laid))) => laid.trunk == trunk && laid.ducts.as_slice() == ducts,
        _ => false,
    }
}

// Whether the answer is this refusal.
fn is_refused(answer: Option<&Answer>, fault: JobFault) -> bool {
    match answer {
        Some(Answer::Planned(Err(e))) => *e == fault,
        Some(Answer::Job(Err(e))) => *e == fault,
        _ => false,
    }
}

#[test]
fn a_day_of_the_worked_example(rt: HostRuntime) -> Result<(), Fail> {
    let mut oracle = oracle_of(&rt, rt.alloc(), 5, &WORKED)?;
    let mut trunk = [NONE; 4];
    let calls = [
        Call::Plan,
        Call::Add {
            fitting: 0,
            places: &[0, 4],
        },
        Call::Add {
            fitting: 1,
            places: &[2],
        },
        Call::Add {
            fitting: 2,
            places: &[1, 3],
        },
        Call::Focus { place: 1 },
        Call::Plan,
        Call::Drop { fitting: 2 },
        Call::Add {
            fitting: 0,
            places: &[1],
        },
        Call::Plan,
        Call::Drop { fitting: 1 },
        Call::Plan,
    ];
    let answers = run(rt.alloc(), &mut oracle, &calls, &mut trunk)?;
    assert!(rt; is_refused(answers.get(0), JobFault::NoneStanding));
    let three = [
        Row {
            first: 3,
            second: 4,
            length: 150,
        },
        Row {
            first: 2,
            second: 3,
            length: 400,
        },
    ];
    assert!(rt;
        is_laid(
            answers.get(5),
            Trunk {
                start: 4,
                ducts: 2,
                weight: 550,
            },
            &three,
        )
    );
    assert!(rt; is_refused(answers.get(7), JobFault::Stands { fitting: 0 }));
    let two = [
        Row {
            first: 2,
            second: 1,
            length: 200,
        },
        Row {
            first: 1,
            second: 0,
            length: 300,
        },
    ];
    assert!(rt;
        is_laid(
            answers.get(8),
            Trunk {
                start: 0,
                ducts: 2,
                weight: 500,
            },
            &two,
        )
    );
    assert!(rt;
        is_laid(
            answers.get(10),
            Trunk {
                start: 0,
                ducts: 0,
                weight: 0,
            },
            &[],
        )
    );
    Ok(())
}

#[test]
fn over_a_jumper(rt: HostRuntime) -> Result<(), Fail> {
    let plain = oracle_of(&rt, rt.alloc(), 5, &WORKED)?;
    let mut oracle = Jumper::new(plain, 4, 1, 10);
    let mut trunk = [NONE; 5];
    let calls = [
        Call::Add {
            fitting: 7,
            places: &[4],
        },
        Call::Add {
            fitting: 3,
            places: &[2],
        },
        Call::Plan,
    ];
    let answers = run(rt.alloc(), &mut oracle, &calls, &mut trunk)?;
    let ducts = [
        Row {
            first: 4,
            second: 1,
            length: 10,
        },
        Row {
            first: 1,
            second: 2,
            length: 200,
        },
    ];
    assert!(rt;
        is_laid(
            answers.get(2),
            Trunk {
                start: 2,
                ducts: 2,
                weight: 210,
            },
            &ducts,
        )
    );
    Ok(())
}

#[test]
fn two_places_without_a_duct(rt: HostRuntime) -> Result<(), Fail> {
    let mut oracle = oracle_of(&rt, rt.alloc(), 2, &[])?;
    let mut trunk = [NONE; 1];
    let calls = [
        Call::Add {
            fitting: 0,
            places: &[0],
        },
        Call::Add {
            fitting: 1,
            places: &[1],
        },
        Call::Plan,
        Call::Drop { fitting: 1 },
        Call::Add {
            fitting: 1,
            places: &[0],
        },
        Call::Plan,
    ];
    let answers = run(rt.alloc(), &mut oracle, &calls, &mut trunk)?;
    assert!(rt; is_refused(answers.get(2), JobFault::NoSet { fittings: 2 }));
    assert!(rt;
        is_laid(
            answers.get(5),
            Trunk {
                start: 0,
                ducts: 0,
                weight: 0,
            },
            &[],
        )
    );
    let mut short: [Row; 0] = [];
    let again = run(rt.alloc(), &mut oracle, &calls, &mut short)?;
    assert!(rt; is_refused(again.get(2), JobFault::Trunk { needed: 1 }));
    Ok(())
}
