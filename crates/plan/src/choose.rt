// Where to begin, and which place of each group to reach.
ghost use Rattle.std.specs.Prelude.{◌≡◌, ℕ, ◌<◌, ◌≤◌, length, Some};
ghost use Rattle.ways.specs.Few.{members};
ghost use Rattle.ways.specs.Lesser.{lesser_by};
ghost use Rattle.ways.specs.Places.{AllBelow};
ghost use Rattle.oracle.specs.Meaning.{far};
ghost use Rattle.trees.specs.Groups.{cost, GroupsBelow};
ghost use Rattle.plan.specs.Groups.{lists};
ghost use Rattle.plan.specs.Choices.{Begins, Around, near_cmp};

use crate::group::Group;
use crate::reach::{cost_of, nearest_of};
use oracle::traits::{DistanceOracle, GroupOracle};
use ways::few::Few;
use ways::lesser::lesser;
use ways::near::Near;

// The cheaper start, and of two as cheap that of the smaller place: `lesser`, in the words of the steps.
fn cheaper(first: Option<Near<u64>>, other: Option<Near<u64>>) -> Option<Near<u64>>
    ensures { result ≡ lesser_by near_cmp first other }
{
    lesser(first, other)
}

// The place of the first group whose distances to the others are together the least, with their sum, or none where no place has a way to all of them.
pub(crate) fn least_start<O: GroupOracle>(
    o: &mut O,
    first: &[u32],
    others: &[Group],
) -> Option<Near<u64>>
    requires within { AllBelow (O.DistanceOracle.meaning o.old).count first.now }
    requires inside { GroupsBelow (O.DistanceOracle.meaning o.old).count (lists others.now) }
    requires few { length others.now ≤ 64 }
    ensures value { Begins (O.DistanceOracle.meaning o.old) first.now (lists others.now) result }
    ensures same { O.DistanceOracle.meaning o.new ≡ O.DistanceOracle.meaning o.old }
{
    let mut best = None;
    for place in first {
        let cost = cost_of(o, *place, others);
        let start = cost.map(|distance| Near {
            distance,
            place: *place,
        });
        best = cheaper(best, start);
    }
    best
}

// The place x, and the nearest place to it of each other group.
pub(crate) fn gather<O: GroupOracle>(o: &mut O, x: u32, others: &[Group]) -> Few<u32, 64>
    requires within { x < (O.DistanceOracle.meaning o.old).count }
    requires inside { GroupsBelow (O.DistanceOracle.meaning o.old).count (lists others.now) }
    requires reached { (w : ℕ) × (cost (far (O.DistanceOracle.meaning o.old)) x (lists others.now) ≡ Some w) }
    requires few { length others.now < 64 }
    ensures items { Around (O.DistanceOracle.meaning o.old) x (lists others.now) (members result) }
    ensures same { O.DistanceOracle.meaning o.new ≡ O.DistanceOracle.meaning o.old }
{
    let mut chosen = Few::new(0);
    let _ = chosen.push(x);
    for group in others {
        let Some(near) = nearest_of(o, x, group.as_slice()) else {
            unreachable()
        };
        let _ = chosen.push(near.place);
    }
    chosen
}
