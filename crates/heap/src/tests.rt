// Heaps on small examples.
use crate::queue::{Heap, NoRoom};
use crate::rank::RankEntry;
use crate::search::SearchEntry;
use std::test::Fail;

#[test]
fn the_nearest_leaves_first(rt: HostRuntime) -> Result<(), Fail> {
    let mut queue = Heap::new(rt.alloc(), 4)?;
    queue.push(SearchEntry {
        distance: 7,
        place: 1,
    })?;
    queue.push(SearchEntry {
        distance: 3,
        place: 9,
    })?;
    queue.push(SearchEntry {
        distance: 3,
        place: 2,
    })?;
    queue.push(SearchEntry {
        distance: 3,
        place: 9,
    })?;
    assert_eq!(rt;
        queue.pop(),
        Some(SearchEntry {
            distance: 3,
            place: 2,
        })
    );
    assert_eq!(rt;
        queue.pop(),
        Some(SearchEntry {
            distance: 3,
            place: 9,
        })
    );
    assert_eq!(rt;
        queue.pop(),
        Some(SearchEntry {
            distance: 3,
            place: 9,
        })
    );
    assert_eq!(rt;
        queue.pop(),
        Some(SearchEntry {
            distance: 7,
            place: 1,
        })
    );
    Ok(())
}

#[test]
fn most_ducts_leave_first(rt: HostRuntime) -> Result<(), Fail> {
    let mut queue = Heap::new(rt.alloc(), 3)?;
    queue.push(RankEntry { ducts: 1, place: 0 })?;
    queue.push(RankEntry { ducts: 4, place: 6 })?;
    queue.push(RankEntry { ducts: 4, place: 5 })?;
    assert_eq!(rt; queue.pop(), Some(RankEntry { ducts: 4, place: 5 }));
    assert_eq!(rt; queue.pop(), Some(RankEntry { ducts: 4, place: 6 }));
    assert_eq!(rt; queue.pop(), Some(RankEntry { ducts: 1, place: 0 }));
    Ok(())
}

#[test]
fn a_full_heap_refuses(rt: HostRuntime) -> Result<(), Fail> {
    let mut queue = Heap::new(rt.alloc(), 1)?;
    let kept = SearchEntry {
        distance: 5,
        place: 1,
    };
    queue.push(kept)?;
    assert_eq!(rt;
        queue.push(SearchEntry {
            distance: 2,
            place: 0,
        }),
        Err(NoRoom)
    );
    assert_eq!(rt; queue.len(), 1);
    assert_eq!(rt; queue.pop(), Some(kept));
    assert_eq!(rt; queue.pop(), None);
    Ok(())
}
