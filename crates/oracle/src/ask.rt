// Questions that answer none for what is no place: whoever knows its places asks them without a refusal.
ghost use Rattle.std.specs.Prelude.{◌≡◌};
ghost use Rattle.oracle.specs.Asked.{DistanceOf, NearestTo, LegFrom};

use crate::step::Step;
use crate::traits::{DistanceOracle, GroupOracle};
use crate::walk::Leg;
use ways::near::Near;

// The distance of two places, or none where there is no way or one of them is no place.
pub fn distance_of<O: DistanceOracle>(o: &mut O, u: u32, v: u32) -> Option<u32>
    ensures value { DistanceOf (O.DistanceOracle.meaning o.old) u v result }
    ensures kept { O.DistanceOracle.kept o.old o.new }
{
    o.distance(u, v).ok().flatten()
}

// The place in focus that is nearest to v, or none where no way leads to one or v is no place.
pub fn nearest_to<O: GroupOracle>(o: &mut O, v: u32) -> Option<Near<u32>>
    ensures value { NearestTo (O.DistanceOracle.meaning o.old) (O.GroupOracle.focused o.old) v result }
    ensures kept { O.DistanceOracle.kept o.old o.new }
{
    o.nearest(v).ok().flatten()
}

// The leg that the way rule names, or none where the walk ends or one of the two is no place.
pub fn leg_from<O: DistanceOracle>(o: &mut O, at: u32, to: u32) -> Option<Leg>
    ensures value { LegFrom (O.DistanceOracle.meaning o.old) at to result }
    ensures kept { O.DistanceOracle.kept o.old o.new }
{
    match o.step(at, to) {
        Ok(Step::Next { place, length }) => Some(Leg { place, length }),
        Ok(Step::Here | Step::NoWay) | Err(_) => None,
    }
}
