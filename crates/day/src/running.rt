// A day of calls over one oracle.
ghost use Rattle.std.specs.Prelude.{◌≡◌, ℕ, List, [], ◌∷◌, ◌++◌, map, length, IfOk};
ghost use Rattle.job.specs.Day.{Act};
ghost use Rattle.job.specs.Held.{Agrees};
ghost use Rattle.job.specs.Said.{said};
ghost use Rattle.ways.specs.declared.row.Row.{Row};
ghost use Rattle.oracle.specs.Meaning.{Meaning};
ghost use Rattle.day.specs.Law.{Answers};
ghost use Rattle.day.specs.Run.{PlanLaw, Right, DayLaw};

use crate::answer::{Answer, Laid};
use crate::planning::plan_job;
use job::call::Call;
use job::fault::JobFault;
use job::job::Job;
use oracle::traits::{DistanceOracle, GroupOracle};
use plan::trunk::Trunk;
use std::alloc::{AllocError, Global};
use ways::row::Row;

// The answer to a plan, with a copy of the ducts that it laid.
fn kept(
    heap: Global,
    planned: Result<Trunk, JobFault>,
    trunk: &[Row],
) -> Result<Result<Laid, JobFault>, AllocError>
    ensures { IfOk result (λ s. (m : Meaning) (n : ℕ) (gs : List (List ℕ)) (old : List Row) → Answers m n gs old trunk.now planned → PlanLaw m n gs (length old) s) }
{
    // No `map`: a closure that asks for memory cannot pass its failure on.
    match planned {
        Err(fault) => Ok(Err(fault)),
        Ok(laid) => {
            let count = (laid.ducts as usize).min(trunk.len());
            let ducts = Vec::from_slice(heap, &trunk[0..count])?;
            Ok(Ok(Laid { trunk: laid, ducts }))
        }
    }
}

// Answers one call; fails for want of memory alone.
fn answered<O: GroupOracle>(
    heap: Global,
    oracle: &mut O,
    job: &mut Job,
    call: &Call,
    trunk: &mut [Row],
) -> Result<Answer, AllocError>
    ensures right { (calls : List Act) → Agrees (O.DistanceOracle.meaning oracle.old).count calls job.old → IfOk result (λ a. Right (O.DistanceOracle.meaning oracle.old) (length trunk.old) calls (said call.now) a) }
    ensures agrees { (calls : List Act) → Agrees (O.DistanceOracle.meaning oracle.old).count calls job.old → Agrees (O.DistanceOracle.meaning oracle.old).count (calls ++ said call.now ∷ []) job.new }
    ensures same { O.DistanceOracle.meaning oracle.new ≡ O.DistanceOracle.meaning oracle.old }
{
    match call {
        Call::Add { fitting, places } => Ok(Answer::Job(job.add(*fitting, places))),
        Call::Drop { fitting } => Ok(Answer::Job(job.drop(*fitting))),
        Call::Plan => {
            let planned = plan_job(job, oracle, trunk);
            Ok(Answer::Planned(kept(heap, planned, trunk)?))
        }
        Call::Focus { place } => Ok(Answer::Focused(oracle.focus(*place))),
        Call::Clear => {
            oracle.clear();
            Ok(Answer::Cleared)
        }
    }
}

// Answers a day of calls one after the other, over one oracle, from a job at which nothing stands; fails for want of memory alone.
pub fn run<O: GroupOracle>(
    heap: Global,
    oracle: &mut O,
    calls: &[Call],
    trunk: &mut [Row],
) -> Result<Vec<Answer>, AllocError>
    ensures day { IfOk result (λ answers. DayLaw (O.DistanceOracle.meaning oracle.old) (length trunk.old) (map said calls.now) answers.items) }
    ensures same { O.DistanceOracle.meaning oracle.new ≡ O.DistanceOracle.meaning oracle.old }
{
    let mut job = Job::new(oracle);
    let mut answers = Vec::new(heap);
    for call in calls {
        let answer = answered(heap, oracle, &mut job, call, trunk)?;
        answers.push(answer)?;
    }
    Ok(answers)
}
