// A walk by an oracle's steps: it needs no more of the oracle than the promise.
ghost use Rattle.std.specs.Prelude.{◌≡◌};
ghost use Rattle.oracle.specs.declared.walk.WalkFault.TheVariants.{Oracle as FromOracle, NoMemory as WantOfMemory};
ghost use Rattle.oracle.specs.Walked.{Walked};

use crate::ask::leg_from;
use crate::fault::OracleFault;
use crate::traits::DistanceOracle;
use std::alloc::{AllocFailed, Global};

// One duct of a walk: the place that it comes to, and its length.
#[derive(Clone, Copy, PartialEq, Eq, Debug)]
pub struct Leg {
    pub place: u32,
    pub length: u32,
}

// Why there is no walk.
#[derive(Clone, Copy, PartialEq, Eq, Debug)]
pub enum WalkFault {
    // The oracle refuses a place.
    Oracle(OracleFault),
    // The legs find no memory.
    NoMemory,
}

impl From<OracleFault> for WalkFault {
    ghost from_gives = { λ e r. r ≡ FromOracle e };

    fn from(e: OracleFault) -> WalkFault {
        WalkFault::Oracle(e)
    }
}

impl<T: Drop> From<AllocFailed<T>> for WalkFault {
    ghost from_gives = { λ _ r. r ≡ WantOfMemory };

    fn from(_e: AllocFailed<T>) -> WalkFault {
        WalkFault::NoMemory
    }
}

// The legs of a shortest way from u to v by the way rule, or none where there is no way. Refuses what is no place, and want of memory.
pub fn walk<O: DistanceOracle>(
    o: &mut O,
    heap: Global,
    u: u32,
    v: u32,
) -> Result<Option<Vec<Leg>>, WalkFault>
    ensures value { Walked (O.DistanceOracle.meaning o.old) u v result }
    ensures kept { O.DistanceOracle.kept o.old o.new }
{
    let Some(_) = o.distance(u, v)? else {
        return Ok(None);
    };
    let mut legs = Vec::new(heap);
    let mut at = u;
    while let Some(leg) = leg_from(o, at, v) {
        legs.push(leg)?;
        at = leg.place;
    }
    Ok(Some(legs))
}
