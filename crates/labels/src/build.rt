// The table built: the pruned search from each place in the order.
ghost use Rattle.std.specs.Prelude.{◌≡◌, ◌*◌, ◌<◌, ◌≤◌, length};
ghost use Rattle.heap.specs.Of.{capacity};
ghost use Rattle.frame.specs.Of.{places_of, rows_of};
ghost use Rattle.ways.specs.Places.{Order};
ghost use Rattle.labels.specs.Building.{memory_verdict, Built, SomeLonger, Zeroed, Rebuilt, Answered};

use crate::fault::LabelsFault;
use crate::filling::fill;
use crate::memory::Sizes;
use crate::memory_check::check_memory;
use crate::order::check_order;
use crate::record::Record;
use crate::searching::Search;
use crate::table::Rows;
use frame::frame::ClosedFrame;
use heap::queue::Heap;
use heap::search::SearchEntry;
use hubs::entry::Entry;

// Fills the rows from nothing. A refusal leaves rows and counts zero.
fn rebuild(
    frame: &ClosedFrame,
    width: u32,
    order: &[u32],
    entries: &mut [Entry],
    counts: &mut [u32],
    records: &mut [Record],
    queue: &mut Heap<SearchEntry>,
) -> Result<(), LabelsFault>
    requires width { width ≤ 4096 }
    requires rows { length entries.old ≡ places_of frame.now * width }
    requires counts { length counts.old ≡ places_of frame.now }
    requires records { length records.old ≡ places_of frame.now }
    requires ordered { Order (places_of frame.now) order.now }
    requires room { 2 * length (rows_of frame.now) < capacity queue.old }
    ensures { Rebuilt (places_of frame.now) (rows_of frame.now) order.now width counts.new entries.new result }
{
    records.fill(Record::default());
    let mut rows = Rows::empty(entries, counts, width);
    let mut search = Search {
        records,
        queue,
        round: 0,
    };
    let filled = fill(frame, order, &mut rows, &mut search);
    // No `inspect_err`: of a closure that changes what it captures the proof knows nothing.
    if filled.is_err() {
        rows.clear();
    }
    filled
}

// Fills the rows of every place with its label, under any order. Refuses 13, 31, 17 and 36, in this order;
// only the last changes the table, and leaves rows and counts zero.
pub fn build(
    frame: &ClosedFrame,
    width: u32,
    order: &[u32],
    entries: &mut [Entry],
    counts: &mut [u32],
    records: &mut [Record],
    queue: &mut Heap<SearchEntry>,
) -> Result<(), LabelsFault>
    ensures { Answered (places_of frame.now) (rows_of frame.now) order.now width (memory_verdict (places_of frame.now) (length (rows_of frame.now)) width (record { rows = length entries.old; counts = length counts.old; order = length order.now; records = length records.old; entries = capacity queue.old })) counts.old entries.old counts.new entries.new result }
{
    let sizes = Sizes {
        rows: entries.len(),
        counts: counts.len(),
        order: order.len(),
        records: records.len(),
        entries: queue.room(),
    };
    check_memory(frame, width, sizes)?;
    check_order(order, records)?;
    let n = order.len();
    rebuild(
        frame,
        width,
        order,
        entries,
        counts,
        &mut records[..n],
        queue,
    )
}
