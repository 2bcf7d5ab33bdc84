// What a jumper answers of groups.
ghost use Rattle.std.specs.Prelude.{◌<◌};
ghost use Rattle.ways.specs.Way.{LawfulDuct};
ghost use Rattle.jumper.specs.Crossings.{SeenOver, Seen};
ghost use Rattle.std.proofs.Common.{rules};

use crate::jumper::Jumper;
use crate::sights::{found_of, seen_via, sooner_of};
use crate::sums::turned;
use oracle::ask::{distance_of, nearest_to};
use oracle::fault::OracleFault;
use oracle::traits::{DistanceOracle, GroupOracle};
use ways::near::Near;
use ways::row::Row;

// What is seen from v over the duct from its first end to its second.
fn seen_over<O: GroupOracle>(o: &mut O, duct: Row, v: u32) -> Option<Near<u64>>
    requires lawful { LawfulDuct (O.DistanceOracle.meaning o.old).count duct }
    requires v_within { v < (O.DistanceOracle.meaning o.old).count }
    ensures value { SeenOver (O.DistanceOracle.meaning o.old) (O.GroupOracle.focused o.old) duct v result }
    ensures kept { O.DistanceOracle.kept o.old o.new }
{
    let to_first = distance_of(o, v, duct.first);
    let from_second = nearest_to(o, duct.second);
    seen_via(to_first, duct.length, from_second)
}

// The soonest of what is seen from v without the duct and over it either way. Refuses what is no place.
#[tactic(auto, using(crate::specs::Verdicts::turned_lawful))]
fn seen_from<O: GroupOracle>(o: &mut O, duct: Row, v: u32) -> Result<Option<Near<u64>>, OracleFault>
    requires { LawfulDuct (O.DistanceOracle.meaning o.old).count duct }
    ensures value { Seen (O.DistanceOracle.meaning o.old) (O.GroupOracle.focused o.old) duct v result }
    ensures kept { O.DistanceOracle.kept o.old o.new }
{
    let direct = o.nearest(v)?.map(Near::from);
    let there = seen_over(o, duct, v);
    let back = seen_over(o, turned(duct), v);
    Ok(sooner_of(direct, sooner_of(there, back)))
}

impl<O: GroupOracle> GroupOracle for Jumper<O> {
    ghost focused = { λ j. O.GroupOracle.focused j.below };

    ghost kept_focus = { Prim.search rules };

    fn clear(&mut self) {
        self.below.clear();
    }

    #[tactic(auto, using(crate::specs::Verdicts::jumped_count, crate::proofs::Nears::focused_as))]
    fn focus(&mut self, v: u32) -> Result<(), OracleFault> {
        self.below.focus(v)
    }

    fn nearest(&mut self, v: u32) -> Result<Option<Near<u32>>, OracleFault> {
        if !self.takes() {
            return self.below.nearest(v);
        }
        let seen = seen_from(&mut self.below, self.duct, v)?;
        Ok(found_of(seen))
    }
}
