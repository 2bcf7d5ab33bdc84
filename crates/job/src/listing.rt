// The fittings that stand, one after the other, as a plan goes through them.
ghost use Rattle.std.specs.Prelude.{◌≡◌, ℕ, List, map};
ghost use Rattle.std.specs.List.{AllByRecursion};
ghost use Rattle.ways.specs.Few.{members};
ghost use Rattle.job.specs.Day.{Act, groups_by};
ghost use Rattle.job.specs.Held.{Agrees, groups};
ghost use Rattle.job.specs.Places.{Fitted};

use crate::fitting::Fitting;
use crate::job::Job;
use ways::few::Few;

impl Job {
    // The standing fittings, in rising order of their numbers.
    #[tactic(auto, using(crate::proofs::Listings::below_none, crate::proofs::Listings::below_stands, crate::proofs::Listings::below_absent, crate::proofs::Days::groups_agree))]
    pub fn listed(&self) -> Few<Fitting, 64>
        ensures value { map members (members result) ≡ groups self.now }
        ensures day { (n : ℕ) (calls : List Act) → Agrees n calls self.now → map members (members result) ≡ groups_by n calls }
        ensures fitted { AllByRecursion (Fitted self.now.heading.places) (groups self.now) }
    {
        let mut listed = Few::new(Few::new(0));
        for (f, fitting) in self.fittings.iter().enumerate() {
            if self.stands(f as u32) {
                // there is room for all 64
                let _ = listed.push(*fitting);
            }
        }
        listed
    }
}
