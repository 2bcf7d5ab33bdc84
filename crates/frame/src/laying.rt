// The offset of each place among arcs that are sorted by where they begin.
ghost use Rattle.std.specs.Prelude.{◌≡◌, ℕ, ◌<◌, ◌≤◌, length, nat_lt, slice_index};
ghost use Rattle.std.specs.List.Sorted.{IsNonDecreasingBy};
ghost use Rattle.frame.specs.Fans.{arc_at, Parted};

use crate::arc::Arc;

// The arc begins before the place.
fn is_before(arc: &Arc, place: usize) -> bool
    ensures { result ≡ nat_lt arc.now.from place }
{
    (arc.from as usize) < place
}

// The first arc from `at` on that does not begin before the place.
// By its number: over an iterator of the rest, or by partition points, closing a small frame takes half as long again or more.
fn passed(arcs: &[Arc], at: usize, place: usize) -> usize
    requires { at ≤ length arcs.now }
    ensures bound { (at ≤ result) × (result ≤ length arcs.now) }
    ensures before { (i : ℕ) → at ≤ i → i < result → (arc_at arcs.now i).from < place }
    ensures after { result < length arcs.now → place ≤ (arc_at arcs.now result).from }
{
    let mut next = at;
    while next < arcs.len() {
        if !is_before(&arcs[next], place) {
            return next;
        }
        next += 1;
    }
    next
}

// Writes at each place how many arcs begin before it: one walk over the arcs goes on from place to place.
pub(crate) fn lay(arcs: &[Arc], offsets: &mut [usize])
    requires { IsNonDecreasingBy (λ a. a.from) arcs.now }
    ensures { (v : ℕ) → v < length offsets.new → Parted arcs.now v (slice_index offsets.new v) }
{
    let mut at = 0;
    for (place, offset) in offsets.iter_mut().enumerate() {
        at = passed(arcs, at, place);
        *offset = at;
    }
}
