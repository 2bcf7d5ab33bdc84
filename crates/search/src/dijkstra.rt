// Dijkstra's search from one place over a closed frame, in O((n + m) log m) steps.
ghost use Rattle.std.specs.Prelude.{◌≡◌, ℕ, ◌+◌, ◌*◌, ◌<◌, ◌≤◌, Bool, true, false, [], ◌∷◌, length, Some, None, ◌≢◌};
ghost use Rattle.std.specs.List.Sorted.{IsPermutation};
ghost use Rattle.heap.specs.Of.{entries, capacity};
ghost use Rattle.ways.specs.Way.{Joined};
ghost use Rattle.ways.specs.Options.{AtMost};
ghost use Rattle.ways.specs.Distance.{IsDistance};
ghost use Rattle.frame.specs.Of.{places_of, rows_of};
ghost use Rattle.frame.specs.Neighbours.{degree};
ghost use Rattle.search.specs.State.{Relaxed, Kept, But, known, done, lit};
ghost use Rattle.search.specs.Memory.{SameMemory};

use crate::record::Record;
use frame::frame::ClosedFrame;
use heap::queue::Heap;
use heap::search::SearchEntry;

// The memory that is lent to a search: a record of each place, and the places that wait.
// Labels have a twin over other records: one for both would be a public call with `requires`, and a public call refuses.
#[derive(Drop)]
struct Search<'a> {
    records: &'a mut [Record],
    queue: &'a mut Heap<SearchEntry>,
}

// Whether a way of this length is shorter than any that was found.
fn improves(known: Option<u32>, distance: u32) -> bool
    ensures { (result ≡ true → AtMost known distance → ⊥) × (result ≡ false → AtMost known distance) }
{
    known.is_none_or(|least| distance < least)
}

// Forgets every way, and keeps the focus.
fn wipe(records: &mut [Record])
    ensures known { (v : ℕ) → known records.new v ≡ None }
    ensures unsettled { (v : ℕ) → done records.new v ≡ false }
    ensures focus { (v : ℕ) → lit records.new v ≡ lit records.old v }
{
    for record in records.iter_mut() {
        record.distance = None;
        record.settled = false;
    }
}

impl Search<'_> {
    // Takes note of a way of this length to a place.
    fn relax(&mut self, to: u32, distance: u32)
        requires within { to < length self.old.records.now }
        requires room { length (entries self.old.queue.now) < capacity self.old.queue.now }
        ensures same { SameMemory self.old self.new }
        ensures longer { length (entries self.new.queue.now) ≤ length (entries self.old.queue.now) + 1 }
        ensures relaxed { Relaxed self.old.records.now (entries self.old.queue.now) to distance self.new.records.now (entries self.new.queue.now) }
    {
        let record = &mut self.records[to as usize];
        if improves(record.distance, distance) {
            record.distance = Some(distance);
            let entry = SearchEntry {
                distance,
                place: to,
            };
            self.queue.push(entry).unwrap();
        }
    }

    // Follows each duct of a place that lies at this distance.
    fn follow(&mut self, frame: &ClosedFrame, place: u32, distance: u32)
        requires records { length self.old.records.now ≡ places_of frame.now }
        requires distance { distance ≤ 4095000000 }
        requires room { length (entries self.old.queue.now) + degree (rows_of frame.now) place ≤ capacity self.old.queue.now }
        ensures same { SameMemory self.old self.new }
        ensures longer { length (entries self.new.queue.now) ≤ length (entries self.old.queue.now) + degree (rows_of frame.now) place }
        ensures steady { (v : ℕ) → done self.new.records.now v ≡ done self.old.records.now v }
        ensures kept { (s : ℕ) → known self.old.records.now place ≡ Some distance → Kept (rows_of frame.now) (But (rows_of frame.now) place) s distance (known self.old.records.now) (done self.old.records.now) (entries self.old.queue.now) → Kept (rows_of frame.now) (Joined (rows_of frame.now)) s distance (known self.new.records.now) (done self.new.records.now) (entries self.new.queue.now) }
    {
        for arc in frame.neighbours(place) {
            self.relax(arc.to, distance + arc.length);
        }
    }

    // Puts the source, and nothing else, into the records and the heap.
    fn begin(&mut self, source: u32)
        requires within { source < length self.old.records.now }
        requires room { 0 < capacity self.old.queue.now }
        ensures same { SameMemory self.old self.new }
        ensures bag { IsPermutation (record { distance = 0; place = source } ∷ []) (entries self.new.queue.now) }
        ensures source { known self.new.records.now source ≡ Some 0 }
        ensures others { (v : ℕ) → (v ≢ source) → known self.new.records.now v ≡ None }
        ensures unsettled { (v : ℕ) → done self.new.records.now v ≡ false }
    {
        wipe(self.records);
        self.queue.clear();
        self.relax(source, 0);
    }
}

// Gives each record the distance of its place from the source, or none where no way leads to it.
// Records and heap come apart: of a struct that the caller makes over a part of its records, the check finds no proof
// that the part ends as the search leaves it.
pub(crate) fn run(
    frame: &ClosedFrame,
    records: &mut [Record],
    queue: &mut Heap<SearchEntry>,
    source: u32,
)
    requires records { length records.old ≡ places_of frame.now }
    requires within { source < places_of frame.now }
    requires room { 2 * length (rows_of frame.now) < capacity queue.old }
    ensures distances { (v : ℕ) → IsDistance (rows_of frame.now) source v (known records.new v) }
    ensures room { capacity queue.new ≡ capacity queue.old }
    ensures focus { (v : ℕ) → lit records.new v ≡ lit records.old v }
{
    let mut search = Search { records, queue };
    search.begin(source);
    while let Some(entry) = search.queue.pop() {
        let at = entry.place as usize;
        if !search.records[at].settled {
            search.records[at].settled = true;
            search.follow(frame, entry.place, entry.distance);
        }
    }
}
