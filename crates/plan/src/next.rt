// Which chosen place the trunk takes next.
ghost use Rattle.std.specs.Prelude.{◌≡◌, [], ◌∷◌};
ghost use Rattle.plan.specs.Trunks.{BranchFrom, Joinable, NextOf};

use crate::branch::Branch;
use oracle::ask::nearest_to;
use oracle::traits::{DistanceOracle, GroupOracle};
use ways::lesser::lesser;

// The branch from a place, or none where it is on the trunk.
fn branch_from<O: GroupOracle>(o: &mut O, from: u32) -> Option<Branch>
    requires { Joinable (O.DistanceOracle.meaning o.old) (O.GroupOracle.focused o.old) (from ∷ []) }
    ensures value { BranchFrom (O.DistanceOracle.meaning o.old) (O.GroupOracle.focused o.old) from result }
    ensures kept { O.DistanceOracle.kept o.old o.new }
{
    let near = nearest_to(o, from)?;
    (near.distance > 0).then_some(Branch {
        distance: near.distance,
        from,
        to: near.place,
    })
}

// The shortest branch from a chosen place that is off the trunk, of the shortest that from the smallest place; none where all are on it.
pub(crate) fn next_branch<O: GroupOracle>(o: &mut O, chosen: &[u32]) -> Option<Branch>
    requires { Joinable (O.DistanceOracle.meaning o.old) (O.GroupOracle.focused o.old) chosen.now }
    ensures value { NextOf (O.DistanceOracle.meaning o.old) (O.GroupOracle.focused o.old) chosen.now result }
    ensures same { O.DistanceOracle.meaning o.new ≡ O.DistanceOracle.meaning o.old }
    ensures same_focus { O.GroupOracle.focused o.new ≡ O.GroupOracle.focused o.old }
{
    let mut best = None;
    for place in chosen {
        best = lesser(best, branch_from(o, *place));
    }
    best
}
