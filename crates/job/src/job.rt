// The job: its heading, and room for 64 fittings of 16 places.
ghost use Rattle.std.specs.Prelude.{◌≡◌, ℕ, true, slice_index_or};
ghost use Rattle.ways.specs.Few.{members};
ghost use Rattle.job.specs.Marks.{marked, no_fitting};
ghost use Rattle.job.specs.Places.{lawful};

use crate::fitting::{Fitting, Heading};

#[derive(Drop)]
pub struct Job {
    pub(crate) heading: Heading,
    pub(crate) fittings: [Fitting; 64],
    // whatever stands has lawful places
    ghost sound: { (f : ℕ) → marked heading.standing f ≡ true → lawful heading.places (members (slice_index_or fittings f no_fitting)) ≡ true },
}
