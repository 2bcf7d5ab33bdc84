// The plain oracle: a search for each question.
ghost use Rattle.std.specs.Prelude.{◌≤◌, vec_len};
ghost use Rattle.frame.specs.Of.{places_of};

use crate::record::Record;
use frame::frame::ClosedFrame;
use heap::queue::Heap;
use heap::search::SearchEntry;
use std::rc::Rc;

// A frame, a record for each of its places and a heap. Where these are too few it is an oracle of no places.
#[derive(Drop)]
pub struct PlainOracle {
    pub(crate) frame: Rc<ClosedFrame>,
    pub(crate) records: Vec<Record>,
    pub(crate) queue: Heap<SearchEntry>,
    ghost sized: { vec_len records ≤ places_of frame.value },
}
