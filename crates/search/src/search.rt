// The search as a call: any memory and any source is taken or refused.
ghost use Rattle.std.specs.Prelude.{◌≡◌, length};
ghost use Rattle.heap.specs.Of.{entries, capacity};
ghost use Rattle.frame.specs.Of.{places_of, rows_of};
ghost use Rattle.search.specs.Plain.{search_verdict};
ghost use Rattle.search.specs.Searched.{Searched};

use crate::dijkstra::run;
use crate::needs::{enough, inside};
use crate::record::Record;
use frame::frame::ClosedFrame;
use heap::queue::Heap;
use heap::search::SearchEntry;
use oracle::fault::OracleFault;

// Gives the record of each place its distance from the source, or none where no way leads there. Refuses where the
// records or the heap's room are too few or the source is no place, and then changes nothing.
pub fn search(
    frame: &ClosedFrame,
    records: &mut [Record],
    queue: &mut Heap<SearchEntry>,
    source: u32,
) -> Result<(), OracleFault>
    ensures value { result ≡ search_verdict (places_of frame.now) (length (rows_of frame.now)) (length records.old) (capacity queue.old) source }
    ensures searched { Searched (places_of frame.now) (rows_of frame.now) source records.old records.new (entries queue.old) (entries queue.new) result }
    ensures room { capacity queue.new ≡ capacity queue.old }
{
    let places = frame.places();
    enough(frame, records.len(), queue.room())?;
    inside(places, source)?;
    run(frame, &mut records[..places as usize], queue, source);
    Ok(())
}
