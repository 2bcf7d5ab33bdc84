// The plan of a job over an oracle.
ghost use Rattle.std.specs.Prelude.{◌≡◌, ℕ, List};
ghost use Rattle.job.specs.declared.job.Job.{Job};
ghost use Rattle.job.specs.Day.{Act, groups_by};
ghost use Rattle.job.specs.Held.{Agrees};
ghost use Rattle.day.specs.Law.{refusal, Answers, FocusAfter};

use job::fault::JobFault;
use job::job::Job;
use oracle::traits::{DistanceOracle, GroupOracle};
use plan::fault::PlanFault;
use plan::lay::plan;
use plan::trunk::Trunk;
use ways::row::Row;

// What the job says of a plan's fault, where so many fittings stand.
fn refusal_of(fault: PlanFault, fittings: u32) -> JobFault
    ensures { result ≡ refusal fault fittings }
{
    match fault {
        PlanFault::Count { groups: _ } => JobFault::NoneStanding,
        PlanFault::NoPlace { place } => JobFault::NoPlace { place },
        PlanFault::Rows { needed } => JobFault::Trunk { needed },
        PlanFault::NoSet { groups: _ } => JobFault::NoSet { fittings },
    }
}

// Plans a trunk for the standing fittings over the oracle: its ducts fill the beginning of the trunk memory, whose rest stays, and its start, number of
// ducts and weight are told. Refuses where none stands, where the oracle has another number of places, where the memory is short of n − 1 entries, and
// where no connected set touches every standing fitting; a refusal leaves the memory as it was. Leaves the focus empty where the oracle was asked.
pub fn plan_job<O: GroupOracle>(
    job: &Job,
    oracle: &mut O,
    trunk: &mut [Row],
) -> Result<Trunk, JobFault>
    ensures day { (n : ℕ) (calls : List Act) → Agrees n calls job.now → Answers (O.DistanceOracle.meaning oracle.old) n (groups_by n calls) trunk.old trunk.new result }
    ensures focus { FocusAfter (O.GroupOracle.focused oracle.old) (O.GroupOracle.focused oracle.new) result }
    ensures same { O.DistanceOracle.meaning oracle.new ≡ O.DistanceOracle.meaning oracle.old }
{
    let listed = job.listed();
    let fittings = listed.as_slice();
    let count = fittings.len();
    if count == 0 {
        return Err(JobFault::NoneStanding);
    }
    let places = oracle.places();
    if places != job.places() {
        return Err(JobFault::OtherPlaces { places });
    }
    plan(oracle, fittings, trunk).map_err(|fault| refusal_of(fault, count as u32))
}
