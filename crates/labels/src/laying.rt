// A row laid out by rank, so that a test against it costs the other row's length.
ghost use Rattle.std.specs.Prelude.{◌≡◌, ℕ, ◌-◌, ◌<◌, ◌≤◌, List, length, slice_index_or, All};
ghost use Rattle.std.specs.List.{list_any};
ghost use Rattle.hubs.specs.declared.entry.Entry.{Entry as LabelEntry};
ghost use Rattle.hubs.specs.Labels.{Rising};
ghost use Rattle.hubs.specs.Merge.{merge, sum_of};
ghost use Rattle.labels.specs.Table.{no_entry};
ghost use Rattle.labels.specs.Memory.{SameRound};
ghost use Rattle.labels.specs.State.{blank, Upto, SameSearch, Laid, tells_by};

use crate::record::Record;
use crate::searching::Search;
use hubs::entry::Entry;

impl Search<'_> {
    // Lays a row out for the round.
    pub(crate) fn lay(&mut self, row: &[Entry])
        requires rising { Rising row.now }
        requires ranks { All (λ e. e.rank < length self.old.records.now) row.now }
        requires older { Upto (self.old.round - 1) self.old.records.now × (1 ≤ self.old.round) }
        ensures round { SameRound self.old self.new }
        ensures laid { Laid self.old.round self.new.records.now row.now (length row.now) }
        ensures same { SameSearch self.old.records.now self.new.records.now }
        ensures upto { Upto self.old.round self.new.records.now }
    {
        for e in row {
            let mark = self.records[e.rank as usize];
            self.records[e.rank as usize] = Record {
                laid_round: self.round,
                laid: e.distance,
                ..mark
            };
        }
    }

    // Whether an entry and the one laid out at its rank give this distance or less.
    fn tells(&self, e: &Entry, distance: u32) -> bool
        requires { e.now.rank < length self.now.records.now }
        ensures { result ≡ tells_by self.now.round distance (slice_index_or self.now.records.now e.now.rank blank) e.now }
    {
        let mark = self.records[e.rank as usize];
        mark.laid_round == self.round
            && u64::from(e.distance) + u64::from(mark.laid) <= u64::from(distance)
    }

    // Whether a row and the one laid out share a hub that gives this distance or less.
    pub(crate) fn is_told(&self, row: &[Entry], distance: u32) -> bool
        requires { All (λ e. e.rank < length self.now.records.now) row.now }
        ensures { result ≡ list_any (λ e. tells_by self.now.round distance (slice_index_or self.now.records.now e.rank blank) e) row.now }
    {
        row.iter().any(|e| self.tells(e, distance))
    }
}
