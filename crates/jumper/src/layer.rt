// What a jumper answers of distances and steps.
ghost use Rattle.std.specs.Prelude.{◌≡◌};
ghost use Rattle.oracle.specs.declared.step.Step.TheVariants.{Next};
ghost use Rattle.jumper.specs.Jumped.{jumped};
ghost use Rattle.jumper.specs.Sounds.{jumped_sound};

use crate::jumper::Jumper;
use crate::sums::{narrowed, sums_of};
use oracle::fault::OracleFault;
use oracle::step::Step;
use oracle::traits::DistanceOracle;
use ways::row::Row;

// The step over the duct from its first end.
fn step_over(duct: Row) -> Step
    ensures { result ≡ Next duct.second duct.length }
{
    Step::Next {
        place: duct.second,
        length: duct.length,
    }
}

impl<O: DistanceOracle> DistanceOracle for Jumper<O> {
    ghost meaning = { λ j. jumped (O.DistanceOracle.meaning j.below) j.duct.first j.duct.second j.duct.length };

    ghost kept = { λ j k. (O.DistanceOracle.kept j.below k.below) × (k.duct ≡ j.duct) };

    ghost sound = { λ o. jumped_sound (O.DistanceOracle.meaning o.below) o.duct.first o.duct.second o.duct.length (O.DistanceOracle.sound o.below) };

    ghost kept_meaning = { λ o p k. let e = O.DistanceOracle.kept_meaning o.below p.below k.0 in cc };

    ghost kept_on = { λ o p q k l. (O.DistanceOracle.kept_on o.below p.below q.below k.0 l.0, cc) };

    #[tactic(auto, using(crate::specs::Verdicts::jumped_count))]
    fn places(&self) -> u32 {
        self.below.places()
    }

    #[tactic(auto, using(crate::specs::Sounds::three_sums, crate::specs::Sounds::least_brief))]
    fn distance(&mut self, u: u32, v: u32) -> Result<Option<u32>, OracleFault> {
        if !self.takes() {
            return self.below.distance(u, v);
        }
        let sums = sums_of(&mut self.below, self.duct, u, v)?;
        Ok(narrowed(sums.least()))
    }

    fn step(&mut self, u: u32, v: u32) -> Result<Step, OracleFault> {
        if !self.takes() {
            return self.below.step(u, v);
        }
        let sums = sums_of(&mut self.below, self.duct, u, v)?;
        if u == v {
            return Ok(Step::Here);
        }
        if sums.stays() {
            return self.below.step(u, v);
        }
        let way = sums.crossing(self.duct);
        if u == way.first {
            return Ok(step_over(way));
        }
        self.below.step(u, way.first)
    }
}
