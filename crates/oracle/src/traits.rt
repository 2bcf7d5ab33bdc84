// What an oracle promises: its meaning, which no code holds, and its questions by that meaning.
ghost use Rattle.std.specs.Prelude.{◌≡◌, ℕ, Bool};
ghost use Rattle.ways.specs.Nearest.{no_place};
ghost use Rattle.oracle.specs.Meaning.{Meaning, Sound};
ghost use Rattle.oracle.specs.Answers.{Measured, Stepped, Focused, Found};

use crate::fault::OracleFault;
use crate::step::Step;
use ways::near::Near;

pub trait DistanceOracle {
    // The number of places, the ducts and the way rule.
    ghost meaning: { Self → Meaning };

    // The second is the first after some questions, which leave all that the oracle means as it was.
    ghost kept: { Self → Self → Type 0 };

    // How many places there are.
    fn places(&self) -> u32
        ensures { result ≡ (meaning self.now).count };

    // The distance of two places, or none where there is no way. Refuses what is no place.
    fn distance(&mut self, u: u32, v: u32) -> Result<Option<u32>, OracleFault>
        ensures value { Measured (meaning self.old) u v result }
        ensures kept { kept self.old self.new };

    // What the way rule names from u towards v. Refuses what is no place.
    fn step(&mut self, u: u32, v: u32) -> Result<Step, OracleFault>
        ensures value { Stepped (meaning self.old) u v result }
        ensures kept { kept self.old self.new };

    ghost sound: { (o : Self) → Sound (meaning o) };

    ghost kept_meaning: { (o p : Self) → kept o p → meaning p ≡ meaning o };

    ghost kept_on: { (o p q : Self) → kept o p → kept p q → kept o q };
}

pub trait GroupOracle: DistanceOracle {
    // The places in focus.
    ghost focused: { Self → ℕ → Bool };

    // Empties the focus, and changes nothing else.
    fn clear(&mut self)
        ensures focus { focused self.new ≡ no_place }
        ensures same { Self.DistanceOracle.meaning self.new ≡ Self.DistanceOracle.meaning self.old };

    // Adds one place to the focus, and changes nothing else. Refuses what is no place.
    fn focus(&mut self, v: u32) -> Result<(), OracleFault>
        ensures value { Focused (Self.DistanceOracle.meaning self.old) v (focused self.old) (focused self.new) result }
        ensures same { Self.DistanceOracle.meaning self.new ≡ Self.DistanceOracle.meaning self.old };

    // The place in focus at the least distance, the smallest number among equals, or none where no way leads to one. Refuses what is no place.
    fn nearest(&mut self, v: u32) -> Result<Option<Near<u32>>, OracleFault>
        ensures value { Found (Self.DistanceOracle.meaning self.old) (focused self.old) v result }
        ensures kept { Self.DistanceOracle.kept self.old self.new };

    ghost kept_focus: { (o p : Self) → Self.DistanceOracle.kept o p → focused p ≡ focused o };
}
