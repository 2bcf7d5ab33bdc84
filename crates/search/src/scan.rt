// What the plain oracle reads off the records of a search.
ghost use Rattle.std.specs.Prelude.{◌≡◌, ℕ, ◌<◌, ◌≤◌, true, false, length, Some};
ghost use Rattle.ways.specs.Options.{plus};
ghost use Rattle.ways.specs.Nearest.{Nearest};
ghost use Rattle.frame.specs.Fans.{arc_at};
ghost use Rattle.search.specs.State.{known, lit};
ghost use Rattle.search.specs.Plain.{alike};
ghost use Rattle.search.specs.Scan.{Chosen};

use crate::record::Record;
use frame::arc::Arc;
use ways::lesser::lesser;
use ways::near::Near;

// Whether an arc begins a way of this length to where the records measure from.
fn leads_on(records: &[Record], arc: &Arc, distance: u32) -> bool
    ensures { result ≡ alike (plus (Some arc.now.length) (known records.now arc.now.to)) (Some distance) }
{
    let rest = records
        .get(arc.to as usize)
        .and_then(|record| record.distance);
    rest.is_some_and(|rest| u64::from(arc.length) + u64::from(rest) == u64::from(distance))
}

// The first of the arcs, which go by rising number, that begins a shortest way to where the records measure from.
pub(crate) fn first_onward(records: &[Record], arcs: &[Arc], distance: u32) -> Option<Arc>
    ensures { Chosen records.now arcs.now distance result }
{
    arcs.iter()
        .copied()
        .find(|arc| leads_on(records, arc, distance))
}

// The place in focus of the least distance, and the smallest number among equals.
pub(crate) fn nearest_lit(records: &[Record]) -> Option<Near<u32>>
    requires { length records.now ≤ 4096 }
    ensures { Nearest (length records.now) (lit records.now) (known records.now) result }
{
    let mut best = None;
    for (i, record) in records.iter().enumerate() {
        if let Record {
            distance: Some(distance),
            focused: true,
            ..
        } = *record
        {
            let place = i as u32;
            let here = Some(Near { distance, place });
            best = lesser(best, here);
        }
    }
    best
}

// Takes every place out of focus. Labels clear a mark of other records so: a function of both, with a closure for one assignment, is no plainer.
pub(crate) fn unlight(records: &mut [Record])
    ensures { (v : ℕ) → lit records.new v ≡ false }
{
    for record in records.iter_mut() {
        record.focused = false;
    }
}
