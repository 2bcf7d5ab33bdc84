// The rows filled rank by rank.
ghost use Rattle.std.specs.Prelude.{◌≡◌, ◌*◌, ◌<◌, length};
ghost use Rattle.heap.specs.Of.{capacity};
ghost use Rattle.frame.specs.Of.{places_of, rows_of};
ghost use Rattle.ways.specs.Places.{Order};
ghost use Rattle.labels.specs.Memory.{SameMemory};
ghost use Rattle.labels.specs.State.{Upto};
ghost use Rattle.labels.specs.Building.{Zeroed, Filled};

use crate::fault::LabelsFault;
use crate::round::search_from;
use crate::searching::Search;
use crate::table::Rows;
use frame::frame::ClosedFrame;

// Fills empty rows with the hubs of every rank. Refuses where some label is longer than the width.
// Frame and order stay two parameters: a struct of both would have to promise in each call that it keeps them.
// Rows and search stay two: the one is the answer, the other is memory that is free afterwards.
pub(crate) fn fill(
    frame: &ClosedFrame,
    order: &[u32],
    rows: &mut Rows<'_>,
    search: &mut Search<'_>,
) -> Result<(), LabelsFault>
    requires counts { length rows.old.counts.now ≡ places_of frame.now }
    requires records { length search.old.records.now ≡ places_of frame.now }
    requires ordered { Order (places_of frame.now) order.now }
    requires zeroed { Zeroed rows.old.counts.now rows.old.entries.now }
    requires upto { Upto 0 search.old.records.now }
    requires room { 2 * length (rows_of frame.now) < capacity search.old.queue.now }
    ensures same { SameMemory rows.old rows.new }
    ensures filled { Filled (places_of frame.now) (rows_of frame.now) order.now rows.old.width rows.new.counts.now rows.new.entries.now result }
{
    // By the ranks, which are what a round is told.
    for rank in 0..frame.places() {
        search_from(frame, order, rows, search, rank)?;
    }
    Ok(())
}
