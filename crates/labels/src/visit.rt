// One place of a pruned search: the labels so far tell its distance, or it has the hub.
ghost use Rattle.std.specs.Prelude.{◌≡◌, ℕ, ◌+◌, ◌<◌, ◌≤◌, List, length, All};
ghost use Rattle.heap.specs.Of.{entries as entries_of, capacity};
ghost use Rattle.heap.specs.declared.search.SearchEntry.{SearchEntry as Waiting};
ghost use Rattle.hubs.specs.declared.entry.Entry.{Entry as LabelEntry};
ghost use Rattle.hubs.specs.Labels.{place as place_of};
ghost use Rattle.ways.specs.declared.row.Row.{Row as Duct};
ghost use Rattle.labels.specs.Table.{row_in};
ghost use Rattle.labels.specs.Memory.{SameMemory, SameRound};
ghost use Rattle.labels.specs.Rounds.{Visiting, Visited};

use crate::fault::LabelsFault;
use crate::record::Stage;
use crate::searching::Search;
use crate::table::Rows;
use frame::arc::Arc;
use heap::search::SearchEntry;
use hubs::entry::Entry;

// Cuts the place off, or puts the entry of the source behind its row and follows its arcs. Refuses where its row is full.
pub(crate) fn visit(
    arcs: &[Arc],
    rows: &mut Rows<'_>,
    search: &mut Search<'_>,
    rank: u32,
    source: u32,
    popped: SearchEntry,
) -> Result<(), LabelsFault>
    requires round { search.old.round ≡ rank + 1 }
    requires records { length search.old.records.now ≡ length rows.old.counts.now }
    requires within { popped.place < length rows.old.counts.now }
    requires ranks { All (λ e. e.rank < length search.old.records.now) (row_in rows.old.width rows.old.counts.now rows.old.entries.now popped.place) }
    requires arcs { All (λ a. (a.to < length search.old.records.now) × (a.length ≤ 1000000)) arcs.now }
    requires short { popped.distance ≤ 4095000000 }
    requires room { length (entries_of search.old.queue.now) + length arcs.now ≤ capacity search.old.queue.now }
    ensures round { SameRound search.old search.new }
    ensures longer { length (entries_of search.new.queue.now) ≤ length (entries_of search.old.queue.now) + length arcs.now }
    ensures same { SameMemory rows.old rows.new }
    ensures visited { (ds : List Duct) (order : List ℕ) (row : ℕ → List LabelEntry) (q : List Waiting) → source ≡ place_of order rank → Visiting (length rows.old.counts.now) ds order rows.old.width rank row popped arcs.now rows.old.counts.now rows.old.entries.now search.old.records.now q (entries_of search.old.queue.now) → Visited (length rows.old.counts.now) ds order rows.old.width rank row popped search.old.records.now rows.new.counts.now rows.new.entries.now search.new.records.now (entries_of search.new.queue.now) result }
{
    let place = popped.place;
    let distance = popped.distance;
    if search.is_told(rows.row(place), distance) {
        search.settle(place, Stage::Cut);
        return Ok(());
    }
    let neighbour = search.neighbour_of(arcs, source, place, distance);
    rows.push(
        place,
        Entry {
            rank,
            distance,
            neighbour,
        },
    )?;
    search.settle(place, Stage::Hub);
    search.follow(arcs, distance);
    Ok(())
}
