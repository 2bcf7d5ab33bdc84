// What is asked of the focus, and put into it, where the places are the oracle's.
ghost use Rattle.std.specs.Prelude.{◌≡◌, ◌<◌};
ghost use Rattle.ways.specs.Nearest.{with_place};

use oracle::ask::nearest_to;
use oracle::traits::{DistanceOracle, GroupOracle};

// Whether the place is in focus.
pub(crate) fn in_focus<O: GroupOracle>(o: &mut O, v: u32) -> bool
    requires { v < (O.DistanceOracle.meaning o.old).count }
    ensures value { result ≡ O.GroupOracle.focused o.old v }
    ensures kept { O.DistanceOracle.kept o.old o.new }
{
    nearest_to(o, v).is_some_and(|near| near.distance == 0)
}

// Adds the place to the focus.
pub(crate) fn bring<O: GroupOracle>(o: &mut O, v: u32)
    requires { v < (O.DistanceOracle.meaning o.old).count }
    ensures focus { O.GroupOracle.focused o.new ≡ with_place v (O.GroupOracle.focused o.old) }
    ensures same { O.DistanceOracle.meaning o.new ≡ O.DistanceOracle.meaning o.old }
{
    let _ = o.focus(v);
}
