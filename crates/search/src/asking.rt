// What the plain oracle answers: each question is one search.
ghost use Rattle.std.specs.Prelude.{◌≡◌, ℕ, ◌<◌, ◌≤◌, Bool, true, false, length, Ok, Err, vec_len, ◌≢◌, nat_lt};
ghost use Rattle.ways.specs.Distance.{distance as far_apart};
ghost use Rattle.oracle.specs.Answers.{step_of};
ghost use Rattle.ways.specs.Nearest.{Nearest};
ghost use Rattle.oracle.specs.Meaning.{far};
ghost use Rattle.search.specs.State.{known};
ghost use Rattle.search.specs.Of.{frame_places, frame_rows, ready, meaning_of, focus_of};
ghost use Rattle.frame.proofs.Facts.{closed_few, closed_lawful};
ghost use Rattle.search.specs.Rules.{plain_sound};
ghost use Rattle.std.proofs.Common.{rules, arith};

use crate::dijkstra::run;
use crate::needs::inside;
use crate::plain::PlainOracle;
use crate::scan::{first_onward, nearest_lit, unlight};
use oracle::fault::OracleFault;
use oracle::step::Step;
use oracle::traits::{DistanceOracle, GroupOracle};
use ways::near::Near;

// With too little memory this is an oracle of no places, so the type can't promise enough: who asks finds it out first.
impl PlainOracle {
    // Gives each record its distance from the source.
    fn measure(&mut self, source: u32)
        requires ready { ready self.old ≡ true }
        requires within { source < frame_places self.old }
        ensures found { (v : ℕ) → known self.new.records.items v ≡ far_apart (frame_places self.old) (frame_rows self.old) source v }
        ensures long { vec_len self.new.records ≡ frame_places self.old }
        ensures frame { self.new.frame ≡ self.old.frame }
        ensures meaning { meaning_of self.new ≡ meaning_of self.old }
        ensures focus { focus_of self.new ≡ focus_of self.old }
    {
        run(
            &self.frame,
            self.records.as_mut_slice(),
            &mut self.queue,
            source,
        );
    }

    // The way on from u to another place v: by the duct to the smallest place that begins a shortest way.
    fn toward(&mut self, u: u32, v: u32) -> Step
        requires ready { ready self.old ≡ true }
        requires from { u < frame_places self.old }
        requires goal { v < frame_places self.old }
        requires apart { u ≢ v }
        ensures value { result ≡ step_of (meaning_of self.old) u v }
        ensures meaning { meaning_of self.new ≡ meaning_of self.old }
        ensures focus { focus_of self.new ≡ focus_of self.old }
    {
        self.measure(v);
        let Some(distance) = self.records[u as usize].distance else {
            return Step::NoWay;
        };
        match first_onward(&self.records, self.frame.neighbours(u), distance) {
            Some(arc) => Step::Next {
                place: arc.to,
                length: arc.length,
            },
            None => Step::NoWay,
        }
    }

    // The place in focus that is nearest to v.
    fn nearest_to(&mut self, v: u32) -> Option<Near<u32>>
        requires ready { ready self.old ≡ true }
        requires within { v < frame_places self.old }
        ensures value { Nearest (meaning_of self.old).count (focus_of self.old) (far (meaning_of self.old) v) result }
        ensures meaning { meaning_of self.new ≡ meaning_of self.old }
        ensures focus { focus_of self.new ≡ focus_of self.old }
    {
        self.measure(v);
        nearest_lit(&self.records)
    }
}

impl DistanceOracle for PlainOracle {
    ghost meaning = { meaning_of };

    ghost kept = { λ o p. (meaning_of p ≡ meaning_of o) × (focus_of p ≡ focus_of o) };

    ghost sound = { λ o. plain_sound _ _ _ _ (closed_few o.frame.value) (closed_lawful o.frame.value) };

    ghost kept_meaning = { first_of (Prim.search rules, Prim.grind (arith, Self.row.coded.inj)) };

    ghost kept_on = { first_of (Prim.search rules, Prim.grind (arith, Self.row.coded.inj)) };

    fn places(&self) -> u32 {
        if self.is_ready() {
            self.frame.places()
        } else {
            0
        }
    }

    fn distance(&mut self, u: u32, v: u32) -> Result<Option<u32>, OracleFault> {
        let places = self.places();
        inside(places, u)?;
        inside(places, v)?;
        self.measure(u);
        Ok(self.records[v as usize].distance)
    }

    fn step(&mut self, u: u32, v: u32) -> Result<Step, OracleFault> {
        let places = self.places();
        inside(places, u)?;
        inside(places, v)?;
        if u == v {
            return Ok(Step::Here);
        }
        Ok(self.toward(u, v))
    }
}

impl GroupOracle for PlainOracle {
    ghost focused = { focus_of };

    ghost kept_focus = { first_of (Prim.search rules, Prim.grind (arith, Self.row.coded.inj)) };

    fn clear(&mut self) {
        unlight(&mut self.records);
    }

    fn focus(&mut self, v: u32) -> Result<(), OracleFault> {
        inside(self.places(), v)?;
        self.records[v as usize].focused = true;
        Ok(())
    }

    fn nearest(&mut self, v: u32) -> Result<Option<Near<u32>>, OracleFault> {
        inside(self.places(), v)?;
        Ok(self.nearest_to(v))
    }
}
