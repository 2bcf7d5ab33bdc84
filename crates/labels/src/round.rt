// A round of building: the pruned search from the place of one rank.
ghost use Rattle.std.specs.Prelude.{◌≡◌, ℕ, ◌+◌, ◌*◌, ◌<◌, ◌≤◌, [], ◌∷◌, length, slice_index_or, slice_set};
ghost use Rattle.std.specs.List.Sorted.{IsPermutation};
ghost use Rattle.heap.specs.Of.{entries as entries_of, capacity};
ghost use Rattle.frame.specs.Of.{places_of, rows_of};
ghost use Rattle.labels.specs.Table.{row_in, Behind};
ghost use Rattle.labels.specs.Memory.{SameMemory, SameRoom};
ghost use Rattle.labels.specs.State.{blank, settled_in, first_record, Upto};
ghost use Rattle.labels.specs.Rounds.{Ready, Round};

use crate::fault::LabelsFault;
use crate::searching::Search;
use crate::table::Rows;
use crate::visit::visit;
use frame::frame::ClosedFrame;
use heap::search::SearchEntry;

// Puts the hub of this rank behind the row of each place that has it. Refuses where a row is full.
pub(crate) fn search_from(
    frame: &ClosedFrame,
    order: &[u32],
    rows: &mut Rows<'_>,
    search: &mut Search<'_>,
    rank: u32,
) -> Result<(), LabelsFault>
    requires counts { length rows.old.counts.now ≡ places_of frame.now }
    requires records { length search.old.records.now ≡ places_of frame.now }
    requires behind { Behind (places_of frame.now) rows.old.width rows.old.counts.now rows.old.entries.now }
    requires ready { Ready (places_of frame.now) (rows_of frame.now) order.now rank (row_in rows.old.width rows.old.counts.now rows.old.entries.now) }
    requires upto { Upto rank search.old.records.now }
    requires room { 2 * length (rows_of frame.now) < capacity search.old.queue.now }
    ensures room { SameRoom search.old search.new }
    ensures same { SameMemory rows.old rows.new }
    ensures searched { Round (places_of frame.now) (rows_of frame.now) order.now rows.old.width rank rows.old.counts.now rows.old.entries.now rows.new.counts.now rows.new.entries.now search.new.records.now result }
{
    let source = order[rank as usize];
    search.round = rank + 1;
    search.lay(rows.row(source));
    search.begin(source);
    while let Some(popped) = search.queue.pop() {
        if !search.is_settled(popped.place) {
            let arcs = frame.neighbours(popped.place);
            visit(arcs, rows, search, rank, source, popped)?;
        }
    }
    Ok(())
}
