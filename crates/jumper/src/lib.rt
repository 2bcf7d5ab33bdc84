// The jumper: one more duct laid over any oracle.
// What a call leaves as it was is said of each call: no type relates what was to what is.
// That a duct is lawful is asked by each function that goes over it, and is no invariant: a jumper is made of any numbers.
#![tactic(auto)]

pub mod group;
pub mod jumper;
pub mod laws;
pub mod layer;
mod sights;
mod sums;

#[cfg(test)]
mod tests {
    use crate::jumper::Jumper;
    use oracle::empty::EmptyOracle;
    use oracle::fault::OracleFault;
    use oracle::traits::DistanceOracle;

    // A jumper over no places is refused for its first mark, and a pile of them answers as below.
    #[test]
    fn over_nothing(rt: HostRuntime) {
        let jumper = Jumper::new(EmptyOracle, 7, 8, 5);
        assert_eq!(rt; jumper.check(), Err(OracleFault::NoPlace { place: 7 }));
        let mut pile = Jumper::new(jumper, 7, 7, 0);
        assert_eq!(rt; pile.check(), Err(OracleFault::Limit { which: 3 }));
        assert_eq!(rt; pile.distance(3, 4), Err(OracleFault::NoPlace { place: 3 }));
    }
}
