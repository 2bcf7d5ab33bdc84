// The rows of the table in their memory.
ghost use Rattle.std.specs.Prelude.{◌≡◌, ◌*◌, ◌<◌, ◌≤◌, length};
ghost use Rattle.labels.specs.Table.{Fits};

use crate::fault::LabelsFault;
use hubs::entry::Entry;

// Room for `width` entries and a count for each place, both lent by the caller.
#[derive(Drop)]
pub(crate) struct Rows<'a> {
    entries: &'a mut [Entry],
    counts: &'a mut [u32],
    width: u32,
    ghost few: { (length counts.now ≤ 4096) × (width ≤ 4096) },
    // No row is longer than the width.
    ghost fits: { Fits (length counts.now) width counts.now entries.now },
}

impl<'a> Rows<'a> {
    ghost use Rattle.labels.specs.Table.{row_in, Pushed};
    ghost use Rattle.labels.specs.Memory.{SameMemory};
    ghost use Rattle.labels.specs.Building.{Zeroed};

    // Every row with no entry.
    pub(crate) fn empty(entries: &'a mut [Entry], counts: &'a mut [u32], width: u32) -> Rows<'a>
        requires few { (length counts.old ≤ 4096) × (width ≤ 4096) }
        requires rows { length entries.old ≡ length counts.old * width }
        ensures width { result.width ≡ width }
        ensures zeroed { Zeroed result.counts.now result.entries.now }
        ensures counts { length result.counts.now ≡ length counts.old }
        ensures same { (result.entries.ghost_name ≡ entries.entry.ghost_name) × (result.counts.ghost_name ≡ counts.entry.ghost_name) }
    {
        counts.fill(0);
        entries.fill(Entry::default());
        Rows {
            entries,
            counts,
            width,
        }
    }

    // Makes every count and every entry zero.
    pub(crate) fn clear(&mut self)
        ensures zeroed { Zeroed self.new.counts.now self.new.entries.now }
        ensures same { SameMemory self.old self.new }
    {
        self.counts.fill(0);
        self.entries.fill(Entry::default());
    }

    // The row of a place.
    #[tactic(auto, unfolding(crate::specs::Table::row_in))]
    pub(crate) fn row(&self, place: u32) -> &[Entry]
        requires within { place < length self.now.counts.now }
        ensures { result.now ≡ row_in self.now.width self.now.counts.now self.now.entries.now place }
    {
        let start = place as usize * self.width as usize;
        let end = start + self.counts[place as usize] as usize;
        &self.entries[start..end]
    }

    // Puts an entry behind the row of a place. Refuses, and changes nothing, where the row is full.
    pub(crate) fn push(&mut self, place: u32, entry: Entry) -> Result<(), LabelsFault>
        requires within { place < length self.old.counts.now }
        ensures pushed { Pushed self.old.width place entry self.old.counts.now self.old.entries.now self.new.counts.now self.new.entries.now result }
        ensures same { SameMemory self.old self.new }
    {
        let count = self.counts[place as usize];
        if count == self.width {
            return Err(LabelsFault::TooLong { width: self.width });
        }
        let at = place as usize * self.width as usize + count as usize;
        self.entries[at] = entry;
        self.counts[place as usize] = count + 1;
        Ok(())
    }
}
