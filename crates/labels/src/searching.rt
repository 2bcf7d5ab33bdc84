// The search of a round: its marks, and the places that wait.
ghost use Rattle.std.specs.Prelude.{◌≡◌, ◌+◌, ◌<◌, ◌≤◌, true, false, [], ◌∷◌, length, slice_index_or, slice_set, All};
ghost use Rattle.std.specs.List.Sorted.{IsPermutation};
ghost use Rattle.heap.specs.Of.{entries, capacity};
ghost use Rattle.ways.specs.Options.{AtMost};
ghost use Rattle.labels.specs.Memory.{SameRound};
ghost use Rattle.labels.specs.State.{blank, length_in, done, noted, staged, first_record};
ghost use Rattle.labels.specs.Steps.{Relaxed, Steady, Followed};

use crate::record::{Record, Stage};
use frame::arc::Arc;
use heap::queue::Heap;
use heap::search::SearchEntry;

// A mark of each place, the places that wait, and the number of the round.
// The crate search has its twin over other records: one for both would need public calls that require, where a public call refuses.
#[derive(Drop)]
pub(crate) struct Search<'a> {
    pub(crate) records: &'a mut [Record],
    pub(crate) queue: &'a mut Heap<SearchEntry>,
    pub(crate) round: u32,
}

// Whether a way of this length is shorter than any that the round has found.
fn improves(mark: Record, round: u32, distance: u32) -> bool
    ensures { (result ≡ true → AtMost (length_in round mark) distance → ⊥) × (result ≡ false → AtMost (length_in round mark) distance) }
{
    mark.round != round || distance < mark.distance
}

// The record once the round has found a way of this length.
fn note(mark: Record, round: u32, distance: u32) -> Record
    ensures { result ≡ noted round mark distance }
{
    let stage = if mark.round == round {
        mark.stage
    } else {
        Stage::Waiting
    };
    Record {
        round,
        distance,
        stage,
        ..mark
    }
}

impl Search<'_> {
    // Whether the round has settled a place.
    pub(crate) fn is_settled(&self, place: u32) -> bool
        requires { place < length self.now.records.now }
        ensures { result ≡ done self.now.round self.now.records.now place }
    {
        let mark = self.records[place as usize];
        match mark.stage {
            Stage::Waiting => false,
            Stage::Cut | Stage::Hub => mark.round == self.round,
        }
    }

    // Settles a place at a stage.
    pub(crate) fn settle(&mut self, place: u32, stage: Stage)
        requires { place < length self.old.records.now }
        ensures same { SameRound self.old self.new }
        ensures queue { entries self.new.queue.now ≡ entries self.old.queue.now }
        ensures records { self.new.records.now ≡ slice_set self.old.records.now place (staged (slice_index_or self.old.records.now place blank) stage) }
    {
        self.records[place as usize].stage = stage;
    }

    // Puts the source, and nothing else, into the heap and the marks of the round.
    #[tactic(auto, using(crate::proofs::Marks::begun))]
    pub(crate) fn begin(&mut self, source: u32)
        requires within { source < length self.old.records.now }
        requires fresh { (slice_index_or self.old.records.now source blank).round < self.old.round }
        requires room { 0 < capacity self.old.queue.now }
        ensures same { SameRound self.old self.new }
        ensures few { length (entries self.new.queue.now) ≤ 1 }
        ensures bag { IsPermutation (record { distance = 0; place = source } ∷ []) (entries self.new.queue.now) }
        ensures records { self.new.records.now ≡ slice_set self.old.records.now source (first_record self.old.round (slice_index_or self.old.records.now source blank)) }
    {
        self.queue.clear();
        self.relax(source, 0);
    }

    // Takes note of a way of this length to a place.
    fn relax(&mut self, to: u32, distance: u32)
        requires within { to < length self.old.records.now }
        requires room { length (entries self.old.queue.now) < capacity self.old.queue.now }
        ensures same { SameRound self.old self.new }
        ensures longer { length (entries self.new.queue.now) ≤ length (entries self.old.queue.now) + 1 }
        ensures relaxed { Relaxed self.old.round self.old.records.now (entries self.old.queue.now) to distance self.new.records.now (entries self.new.queue.now) }
    {
        let record = self.records[to as usize];
        if improves(record, self.round, distance) {
            self.records[to as usize] = note(record, self.round, distance);
            self.queue
                .push(SearchEntry {
                    distance,
                    place: to,
                })
                .unwrap();
        }
    }

    // Follows each arc of a place at this distance.
    pub(crate) fn follow(&mut self, arcs: &[Arc], distance: u32)
        requires arcs { All (λ a. (a.to < length self.old.records.now) × (a.length ≤ 1000000)) arcs.now }
        requires short { distance ≤ 4095000000 }
        requires room { length (entries self.old.queue.now) + length arcs.now ≤ capacity self.old.queue.now }
        ensures same { SameRound self.old self.new }
        ensures longer { length (entries self.new.queue.now) ≤ length (entries self.old.queue.now) + length arcs.now }
        ensures steady { Steady self.old.round self.old.records.now self.new.records.now }
        ensures followed { Followed self.old.round arcs.now distance self.old.records.now (entries self.old.queue.now) self.new.records.now (entries self.new.queue.now) }
    {
        for arc in arcs {
            self.relax(arc.to, distance + arc.length);
        }
    }
}
