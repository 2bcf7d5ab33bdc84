// The oracle of no places: it refuses whatever it is asked.
ghost use Rattle.std.specs.Prelude.{[]};
ghost use Rattle.ways.specs.Nearest.{no_place};
ghost use Rattle.std.proofs.Common.{rules};

use crate::fault::OracleFault;
use crate::step::Step;
use crate::traits::{DistanceOracle, GroupOracle};
use ways::near::Near;

#[derive(Clone, Copy, Debug)]
pub struct EmptyOracle;

impl DistanceOracle for EmptyOracle {
    ghost meaning = { λ _. record { count = 0; ducts = []; rule = λ _ _. record { to = 0; length = 0 } } };

    ghost kept = { λ _ _. Unit {0} };

    ghost sound = { Prim.search rules };

    ghost kept_meaning = { Prim.search rules };

    ghost kept_on = { Prim.search rules };

    fn places(&self) -> u32 {
        0
    }

    fn distance(&mut self, u: u32, _v: u32) -> Result<Option<u32>, OracleFault> {
        Err(OracleFault::NoPlace { place: u })
    }

    fn step(&mut self, u: u32, _v: u32) -> Result<Step, OracleFault> {
        Err(OracleFault::NoPlace { place: u })
    }
}

impl GroupOracle for EmptyOracle {
    ghost focused = { λ _. no_place };

    ghost kept_focus = { Prim.search rules };

    fn clear(&mut self) {}

    fn focus(&mut self, v: u32) -> Result<(), OracleFault> {
        Err(OracleFault::NoPlace { place: v })
    }

    fn nearest(&mut self, v: u32) -> Result<Option<Near<u32>>, OracleFault> {
        Err(OracleFault::NoPlace { place: v })
    }
}
