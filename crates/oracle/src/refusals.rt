// The number, layer and spot of an oracle's fault.
ghost use Rattle.faults.specs.declared.layer.Layer.TheVariants.{Oracle as OracleLayer};
ghost use Rattle.oracle.specs.Faults.{number_of, spot_of};

use crate::fault::OracleFault;
use faults::layer::Layer;
use faults::refusal::Refusal;

impl Refusal for OracleFault {
    ghost numbered = { number_of };

    ghost layered = { λ _. OracleLayer };

    ghost spotted = { spot_of };

    fn number(&self) -> u32 {
        match self {
            OracleFault::Limit { .. } => 13,
            OracleFault::EqualEnds { .. } => 14,
            OracleFault::NoPlace { .. } => 15,
            OracleFault::Records { .. } | OracleFault::Entries { .. } => 31,
        }
    }

    fn layer(&self) -> Layer {
        Layer::Oracle
    }

    fn spot(&self) -> u64 {
        match *self {
            OracleFault::Limit { which: spot }
            | OracleFault::EqualEnds { end: spot }
            | OracleFault::NoPlace { place: spot }
            | OracleFault::Records { needed: spot }
            | OracleFault::Entries { needed: spot } => u64::from(spot),
        }
    }
}
