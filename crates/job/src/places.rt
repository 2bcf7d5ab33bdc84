// What is asked of a fitting's places.
ghost use Rattle.std.specs.Prelude.{◌≡◌, true, false, MatchOption, nat_lt};
ghost use Rattle.std.specs.List.{IsAllAdjacentAnswer};
ghost use Rattle.ways.specs.Few.{members};
ghost use Rattle.job.specs.Places.{formed};

use crate::fitting::Fitting;

// Whether each place is above the one before.
fn rises(places: &[u32]) -> bool
    ensures { IsAllAdjacentAnswer (λ p q b. b ≡ nat_lt p q) places.now result }
{
    places.is_sorted_by(
        |p, q|
            ensures { result ≡ nat_lt p.now q.now }
        { p < q },
    )
}

// The fitting of these places, if there are 1 to 16, strictly rising.
#[tactic(auto, using(crate::proofs::Fits::formed_if, crate::proofs::Fits::formed_long, crate::proofs::Fits::few_members))]
pub(crate) fn fitting_of(places: &[u32]) -> Option<Fitting>
    ensures { MatchOption result (formed places.now ≡ false) (λ x. (formed places.now ≡ true) × (members x ≡ places.now)) }
{
    let fitting = Fitting::try_from(places).ok()?;
    (!places.is_empty() && rises(places)).then_some(fitting)
}
