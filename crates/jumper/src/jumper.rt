// An oracle laid over another: the same places, and one more duct.
ghost use Rattle.std.specs.Prelude.{◌≡◌};
ghost use Rattle.jumper.specs.Jumped.{duct, verdict, accepted};
ghost use Rattle.jumper.specs.Verdicts.{Taken};

use oracle::fault::OracleFault;
use oracle::traits::DistanceOracle;
use ways::places::first_outside;
use ways::row::Row;

// One more duct, over the oracle below.
#[derive(Drop)]
pub struct Jumper<O> {
    pub(crate) below: O,
    pub(crate) duct: Row,
}

impl<O> Jumper<O> {
    // Always makes one. A duct that `check` refuses is not there: all is answered as below.
    pub fn new(below: O, a: u32, b: u32, length: u32) -> Jumper<O>
        ensures { (result.below ≡ below) × (result.duct ≡ duct a b length) }
    {
        Jumper {
            below,
            duct: Row {
                first: a,
                second: b,
                length,
            },
        }
    }

    // The oracle below, as it is now.
    pub fn into_below(self) -> O
        ensures { result ≡ self.below }
    {
        self.below
    }
}

impl<O: DistanceOracle> Jumper<O> {
    // Whether the duct is one: a length from 1 to 1,000,000 between two different places.
    #[tactic(auto, unfolding(crate::specs::Jumped::verdict))]
    pub fn check(&self) -> Result<(), OracleFault>
        ensures { result ≡ verdict (O.DistanceOracle.meaning self.now.below).count self.now.duct.first self.now.duct.second self.now.duct.length }
    {
        let n = self.below.places();
        if !(1..=1_000_000).contains(&self.duct.length) {
            return Err(OracleFault::Limit { which: 3 });
        }
        if let Some(place) = first_outside(n, &[self.duct.first, self.duct.second]) {
            return Err(OracleFault::NoPlace { place });
        }
        if self.duct.first == self.duct.second {
            return Err(OracleFault::EqualEnds {
                end: self.duct.first,
            });
        }
        Ok(())
    }

    // Whether `check` accepts the duct.
    #[tactic(auto, using(crate::specs::Verdicts::taken))]
    pub(crate) fn takes(&self) -> bool
        ensures means { Taken (O.DistanceOracle.meaning self.now.below) self.now.duct result }
        ensures value { result ≡ accepted (O.DistanceOracle.meaning self.now.below).count self.now.duct.first self.now.duct.second self.now.duct.length }
    {
        self.check().is_ok()
    }
}
