// A plan: the lightest trunk over groups, laid into the caller's memory.
ghost use Rattle.std.specs.Prelude.{◌≡◌, ◌-◌, ◌<◌, ◌≤◌, ◌∷◌, length, MatchOption};
ghost use Rattle.ways.specs.Places.{AllBelow};
ghost use Rattle.trees.specs.Connected.{Net};
ghost use Rattle.trees.specs.Groups.{GroupsBelow};
ghost use Rattle.plan.specs.Groups.{lists};
ghost use Rattle.plan.specs.Plans.{Joining, Planned, Outcome, FocusAfter};

use crate::admit::admit;
use crate::choose::{gather, least_start};
use crate::fault::PlanFault;
use crate::group::Group;
use crate::grow::grow;
use crate::light::lightest;
use crate::trunk::Trunk;
use oracle::traits::{DistanceOracle, GroupOracle};
use ways::row::Row;

// Chooses the places, and lays the lightest of the trunks that grow from them; none where no connected set touches every group.
fn lay<O: GroupOracle>(
    o: &mut O,
    first: &[u32],
    others: &[Group],
    rows: &mut [Row],
) -> Option<Trunk>
    requires within { AllBelow (O.DistanceOracle.meaning o.old).count first.now }
    requires inside { GroupsBelow (O.DistanceOracle.meaning o.old).count (lists others.now) }
    requires few { length others.now < 64 }
    requires roomy { (O.DistanceOracle.meaning o.old).count - 1 ≤ length rows.old }
    ensures value { MatchOption result (((c : Net) → Joining (O.DistanceOracle.meaning o.old) (first.now ∷ lists others.now) c → ⊥) × (rows.new ≡ rows.old)) (λ t. Planned (O.DistanceOracle.meaning o.old) (first.now ∷ lists others.now) rows.old rows.new t) }
    ensures same { O.DistanceOracle.meaning o.new ≡ O.DistanceOracle.meaning o.old }
{
    let start = least_start(o, first, others)?;
    let gathered = gather(o, start.place, others);
    let chosen = gathered.as_slice();
    let best = lightest(o, chosen);
    Some(grow(o, best.start, chosen, rows))
}

// Plans a trunk over the groups, in their order: lays its ducts at the beginning of the rows, whose rest stays, and tells its start, number of ducts and weight.
// Refuses where the number of groups is not 1 to 64, a place is not the oracle's, or the rows are fewer than n − 1, and then changes nothing;
// and where no connected set touches every group, and then leaves the rows as they were. Where it asked the oracle, it leaves the focus empty.
pub fn plan<O: GroupOracle>(
    o: &mut O,
    groups: &[Group],
    rows: &mut [Row],
) -> Result<Trunk, PlanFault>
    ensures value { Outcome (O.DistanceOracle.meaning o.old) (lists groups.now) rows.old rows.new result }
    ensures focus { FocusAfter (O.GroupOracle.focused o.old) (O.GroupOracle.focused o.new) result }
    ensures same { O.DistanceOracle.meaning o.new ≡ O.DistanceOracle.meaning o.old }
{
    admit(o.places(), groups, rows.len())?;
    let trunk = lay(o, groups[0].as_slice(), &groups[1..], rows);
    o.clear();
    trunk.ok_or(PlanFault::NoSet {
        groups: groups.len(),
    })
}
