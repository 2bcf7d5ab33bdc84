// What a job tells.
ghost use Rattle.std.specs.Prelude.{◌≡◌, ℕ, List, length, is_some, IfSome, count_ones};
ghost use Rattle.std.specs.Option.{option_map};
ghost use Rattle.job.specs.Day.{Act, groups_by, standing_by};
ghost use Rattle.job.specs.Held.{held, groups, Agrees};
ghost use Rattle.job.specs.Places.{Fitted};

use crate::job::Job;
use crate::marks::has;

impl Job {
    // How many places there are.
    pub fn places(&self) -> u32
        ensures { result ≡ self.now.heading.places }
    {
        self.heading.places
    }

    // How many fittings stand.
    #[tactic(auto, using(crate::proofs::Listings::ones_count, crate::proofs::Days::groups_agree))]
    pub fn count(&self) -> u32
        ensures marks { result ≡ count_ones self.now.heading.standing }
        ensures value { result ≡ length (groups self.now) }
        ensures day { (n : ℕ) (calls : List Act) → Agrees n calls self.now → result ≡ length (groups_by n calls) }
    {
        self.heading.standing.count_ones()
    }

    // Whether the fitting stands.
    pub fn stands(&self, fitting: u32) -> bool
        ensures value { result ≡ is_some (held self.now fitting) }
        ensures day { (n : ℕ) (calls : List Act) → Agrees n calls self.now → result ≡ is_some (standing_by n calls fitting) }
    {
        has(self.heading.standing, fitting)
    }

    // The places of the fitting, if it stands.
    pub fn places_of(&self, fitting: u32) -> Option<&[u32]>
        ensures value { option_map (λ x. x.now) result ≡ held self.now fitting }
        ensures day { (n : ℕ) (calls : List Act) → Agrees n calls self.now → option_map (λ x. x.now) result ≡ standing_by n calls fitting }
        ensures fitted { IfSome (option_map (λ x. x.now) result) (Fitted self.now.heading.places) }
    {
        let entry = self.fittings.get(fitting as usize)?;
        self.stands(fitting).then_some(entry.as_slice())
    }
}
