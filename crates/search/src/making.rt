// How a plain oracle is made, and whether it has all that it wants.
ghost use Rattle.std.specs.Prelude.{◌≡◌, length, vec_len};
ghost use Rattle.heap.specs.Of.{capacity};
ghost use Rattle.ways.specs.Nearest.{no_place};
ghost use Rattle.frame.specs.Of.{places_of, rows_of};
ghost use Rattle.search.specs.Plain.{memory_verdict, plain_meaning};
ghost use Rattle.search.specs.Of.{frame_places, frame_rows, ready, meaning_of, focus_of};

use crate::needs::enough;
use crate::plain::PlainOracle;
use crate::record::Record;
use frame::frame::ClosedFrame;
use heap::queue::Heap;
use heap::search::SearchEntry;
use oracle::fault::OracleFault;
use std::rc::Rc;

impl PlainOracle {
    // An oracle over the frame with this memory, and nothing in focus. Where the memory is too little it is one of no places.
    pub fn new(
        frame: Rc<ClosedFrame>,
        mut records: Vec<Record>,
        queue: Heap<SearchEntry>,
    ) -> PlainOracle
        ensures frame { result.frame.value ≡ frame.value }
        ensures meaning { meaning_of result ≡ plain_meaning (places_of frame.value) (rows_of frame.value) (vec_len records) (capacity queue) }
        ensures focus { focus_of result ≡ no_place }
    {
        records.truncate(frame.places() as usize);
        records.fill(Record::default());
        PlainOracle {
            frame,
            records,
            queue,
        }
    }

    // Refuses where the oracle was made with less than n records, or else with room for less than 2m + 1 heap entries.
    pub fn check(&self) -> Result<(), OracleFault>
        ensures { result ≡ memory_verdict (frame_places self.now) (length (frame_rows self.now)) (vec_len self.now.records) (capacity self.now.queue) }
    {
        enough(&self.frame, self.records.len(), self.queue.room())
    }

    // Whether the memory is enough.
    pub(crate) fn is_ready(&self) -> bool
        ensures { result ≡ ready self.now }
    {
        self.check().is_ok()
    }
}
