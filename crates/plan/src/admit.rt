// Whether a plan can be made of a call.
ghost use Rattle.std.specs.Prelude.{◌≡◌, ◌<◌, MatchResult};
ghost use Rattle.plan.specs.Groups.{lists};
ghost use Rattle.plan.specs.Plans.{outside_groups, Admitted, Refused};

use crate::fault::PlanFault;
use crate::group::Group;
use ways::places::first_outside;

// The first place of the groups that is not below n.
// As a `find_map` it has no proof: what the run of its calls ensures does not give the groups' definition.
fn outside_all(groups: &[Group], n: u32) -> Option<u32>
    ensures { result ≡ outside_groups n (lists groups.now) }
{
    for group in groups {
        let place = first_outside(n, group.as_slice());
        if place.is_some() {
            return place;
        }
    }
    None
}

// Whether a plan over n places can be made: the first check that fails, if any.
pub(crate) fn admit(n: u32, groups: &[Group], room: usize) -> Result<(), PlanFault>
    ensures { MatchResult result (λ _. Admitted n (lists groups.now) room) (λ e. Refused n (lists groups.now) room e) }
{
    if groups.is_empty() || groups.len() > 64 {
        return Err(PlanFault::Count {
            groups: groups.len(),
        });
    }
    if let Some(place) = outside_all(groups, n) {
        return Err(PlanFault::NoPlace { place });
    }
    let needed = n.saturating_sub(1);
    if room < needed as usize {
        return Err(PlanFault::Rows { needed });
    }
    Ok(())
}
