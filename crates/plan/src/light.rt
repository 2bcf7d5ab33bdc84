// The lightest trunk from the chosen places.
ghost use Rattle.std.specs.Prelude.{◌≡◌, ◌<◌, length, nat_lt, slice_index};
ghost use Rattle.ways.specs.Options.{pick};
ghost use Rattle.plan.specs.Kept.{TellsLightest};
ghost use Rattle.plan.specs.Trunks.{Reached, TellsGrown};

use crate::grow::grow;
use crate::trunk::Trunk;
use oracle::traits::{DistanceOracle, GroupOracle};
use ways::row::Row;

// The lighter of two trunks, the first among equals.
// It compares by weight alone, which is no order of all that a trunk tells; pairs made for `lesser` are no plainer.
fn lighter(first: Trunk, other: Trunk) -> Trunk
    ensures { result ≡ pick (nat_lt other.weight first.weight) other first }
{
    if other.weight < first.weight {
        other
    } else {
        first
    }
}

// Grows the trunk from a place, and lays none of its ducts.
fn measure<O: GroupOracle>(o: &mut O, start: u32, chosen: &[u32]) -> Trunk
    requires within { start < (O.DistanceOracle.meaning o.old).count }
    requires reached { Reached (O.DistanceOracle.meaning o.old) start chosen.now }
    ensures trunk { TellsGrown (O.DistanceOracle.meaning o.old) start chosen.now result }
    ensures same { O.DistanceOracle.meaning o.new ≡ O.DistanceOracle.meaning o.old }
{
    let mut nowhere: [Row; 0] = [];
    grow(o, start, chosen, &mut nowhere)
}

// Grows a trunk from each chosen place, in their order, and tells the lightest, the first grown among equals.
pub(crate) fn lightest<O: GroupOracle>(o: &mut O, chosen: &[u32]) -> Trunk
    requires some { 0 < length chosen.now }
    requires reached { Reached (O.DistanceOracle.meaning o.old) (slice_index chosen.now 0) chosen.now }
    ensures trunk { TellsLightest (O.DistanceOracle.meaning o.old) chosen.now (length chosen.now) result }
    ensures same { O.DistanceOracle.meaning o.new ≡ O.DistanceOracle.meaning o.old }
{
    let mut best = measure(o, chosen[0], chosen);
    for start in &chosen[1..] {
        best = lighter(best, measure(o, *start, chosen));
    }
    best
}
