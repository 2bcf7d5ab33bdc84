// The three sums of which the distance over a jumper is the least.
ghost use Rattle.std.specs.Prelude.{◌≡◌, ◌<◌};
ghost use Rattle.ways.specs.Options.{within, lesser, through};
ghost use Rattle.ways.specs.Way.{LawfulDuct};
ghost use Rattle.jumper.specs.Jumped.{crossing, turned};
ghost use Rattle.jumper.specs.Crossings.{Summed, Brief, chosen};

use oracle::ask::distance_of;
use oracle::fault::OracleFault;
use oracle::traits::DistanceOracle;
use ways::lesser::lesser;
use ways::row::Row;

// The lengths without the duct, over it from its first end to its second, and over it back.
#[derive(Clone, Copy)]
pub(crate) struct Sums {
    pub(crate) direct: Option<u64>,
    pub(crate) there: Option<u64>,
    pub(crate) back: Option<u64>,
}

impl Sums {
    // The length of a shortest way.
    pub(crate) fn least(self) -> Option<u64>
        ensures { result ≡ lesser self.direct (lesser self.there self.back) }
    {
        lesser(self.direct, lesser(self.there, self.back))
    }

    // Whether no way over the duct is shorter.
    pub(crate) fn stays(self) -> bool
        ensures { result ≡ within self.direct (lesser self.there self.back) }
    {
        self.least() == self.direct
    }

    // The duct from the end that the shorter way over it comes to first, its first end where both are as long.
    pub(crate) fn crossing(self, duct: Row) -> Row
        ensures { result ≡ chosen duct self }
    {
        if lesser(self.there, self.back) == self.there {
            duct
        } else {
            turned(duct)
        }
    }
}

// The duct from its other end.
pub(crate) fn turned(duct: Row) -> Row
    ensures { result ≡ turned duct }
{
    Row {
        first: duct.second,
        second: duct.first,
        length: duct.length,
    }
}

// The length of a way over the duct, where both of its parts have one.
fn sum_of(first: Option<u32>, length: u32, last: Option<u32>) -> Option<u64>
    ensures { result ≡ through first length last }
{
    first
        .zip(last)
        .map(|(d, e)| u64::from(d) + u64::from(length) + u64::from(e))
}

// A distance, which is known to fit 32 bits: a `try_from` would refuse, and nothing is to be refused.
pub(crate) fn narrowed(d: Option<u64>) -> Option<u32>
    requires { Brief d }
    ensures { result ≡ d }
{
    d.map(|n| n as u32)
}

// The length of a way over the duct from its first end to its second.
fn over<O: DistanceOracle>(o: &mut O, duct: Row, u: u32, v: u32) -> Option<u64>
    requires lawful { LawfulDuct (O.DistanceOracle.meaning o.old).count duct }
    requires u_within { u < (O.DistanceOracle.meaning o.old).count }
    requires v_within { v < (O.DistanceOracle.meaning o.old).count }
    ensures value { result ≡ crossing (O.DistanceOracle.meaning o.old) duct.first duct.second duct.length u v }
    ensures kept { O.DistanceOracle.kept o.old o.new }
{
    let to_first = distance_of(o, u, duct.first);
    let from_second = distance_of(o, duct.second, v);
    sum_of(to_first, duct.length, from_second)
}

// The three sums from u to v. Refuses what is no place.
#[tactic(auto, using(crate::specs::Verdicts::turned_lawful))]
pub(crate) fn sums_of<O: DistanceOracle>(
    o: &mut O,
    duct: Row,
    u: u32,
    v: u32,
) -> Result<Sums, OracleFault>
    requires { LawfulDuct (O.DistanceOracle.meaning o.old).count duct }
    ensures value { Summed (O.DistanceOracle.meaning o.old) duct u v result }
    ensures kept { O.DistanceOracle.kept o.old o.new }
{
    let direct = o.distance(u, v)?.map(u64::from);
    let there = over(o, duct, u, v);
    let back = over(o, turned(duct), u, v);
    Ok(Sums {
        direct,
        there,
        back,
    })
}
