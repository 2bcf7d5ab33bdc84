// The number, layer and spot of a job's fault.
ghost use Rattle.faults.specs.declared.layer.Layer.TheVariants.{Job as JobLayer};
ghost use Rattle.job.specs.Faults.{number_of, spot_of};

use crate::fault::JobFault;
use faults::layer::Layer;
use faults::refusal::Refusal;

impl Refusal for JobFault {
    ghost numbered = { number_of };

    ghost layered = { λ _. JobLayer };

    ghost spotted = { spot_of };

    fn number(&self) -> u32 {
        match self {
            JobFault::Number => 13,
            JobFault::Places { .. } => 16,
            JobFault::NoPlace { .. } => 15,
            JobFault::Stands { .. } => 32,
            JobFault::Absent { .. } => 33,
            JobFault::NoneStanding => 34,
            JobFault::OtherPlaces { .. } => 35,
            JobFault::Trunk { .. } => 31,
            JobFault::NoSet { .. } => 38,
        }
    }

    fn layer(&self) -> Layer {
        Layer::Job
    }

    fn spot(&self) -> u64 {
        let spot = match self {
            JobFault::Number => 1,
            JobFault::NoneStanding => 0,
            JobFault::NoPlace { place } => *place,
            JobFault::Places { fitting }
            | JobFault::Stands { fitting }
            | JobFault::Absent { fitting } => *fitting,
            JobFault::OtherPlaces { places } => *places,
            JobFault::Trunk { needed } => *needed,
            JobFault::NoSet { fittings } => *fittings,
        };
        u64::from(spot)
    }
}
