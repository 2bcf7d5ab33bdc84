// How far a place is from groups.
ghost use Rattle.std.specs.Prelude.{◌≡◌, ◌<◌, ◌≤◌, length};
ghost use Rattle.ways.specs.Nearest.{Nearest};
ghost use Rattle.ways.specs.Places.{AllBelow};
ghost use Rattle.oracle.specs.Meaning.{far};
ghost use Rattle.trees.specs.Groups.{cost, focus_on, GroupsBelow};
ghost use Rattle.plan.specs.Groups.{lists};

use crate::ask::bring;
use crate::group::Group;
use oracle::ask::nearest_to;
use oracle::traits::{DistanceOracle, GroupOracle};
use ways::near::Near;

// Brings the places into focus, and no other.
fn load<O: GroupOracle>(o: &mut O, places: &[u32])
    requires { AllBelow (O.DistanceOracle.meaning o.old).count places.now }
    ensures focus { O.GroupOracle.focused o.new ≡ focus_on places.now }
    ensures same { O.DistanceOracle.meaning o.new ≡ O.DistanceOracle.meaning o.old }
{
    o.clear();
    for p in places {
        bring(o, *p);
    }
}

// The nearest of the places to v.
pub(crate) fn nearest_of<O: GroupOracle>(o: &mut O, v: u32, places: &[u32]) -> Option<Near<u32>>
    requires within { v < (O.DistanceOracle.meaning o.old).count }
    requires inside { AllBelow (O.DistanceOracle.meaning o.old).count places.now }
    ensures value { Nearest (O.DistanceOracle.meaning o.old).count (focus_on places.now) (far (O.DistanceOracle.meaning o.old) v) result }
    ensures same { O.DistanceOracle.meaning o.new ≡ O.DistanceOracle.meaning o.old }
{
    load(o, places);
    nearest_to(o, v)
}

// The sum of the distances from v to the groups, or none where it has no way to one of them.
pub(crate) fn cost_of<O: GroupOracle>(o: &mut O, v: u32, groups: &[Group]) -> Option<u64>
    requires within { v < (O.DistanceOracle.meaning o.old).count }
    requires inside { GroupsBelow (O.DistanceOracle.meaning o.old).count (lists groups.now) }
    requires few { length groups.now ≤ 64 }
    ensures value { result ≡ cost (far (O.DistanceOracle.meaning o.old)) v (lists groups.now) }
    ensures same { O.DistanceOracle.meaning o.new ≡ O.DistanceOracle.meaning o.old }
{
    let mut sum = 0;
    for group in groups {
        sum += u64::from(nearest_of(o, v, group.as_slice())?.distance);
    }
    Some(sum)
}
