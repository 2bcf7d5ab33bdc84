// The number, layer and spot of a reader's fault.
ghost use Rattle.faults.specs.declared.layer.Layer.TheVariants.{Reader as ReaderLayer};
ghost use Rattle.lines.specs.Faults.{number_of, spot_of};

use crate::fault::ReaderFault;
use faults::layer::Layer;
use faults::refusal::Refusal;

impl Refusal for ReaderFault {
    ghost numbered = { number_of };

    ghost layered = { λ _. ReaderLayer };

    ghost spotted = { spot_of };

    fn number(&self) -> u32 {
        match self {
            ReaderFault::Form { .. } => 11,
            ReaderFault::Section { .. } => 12,
            ReaderFault::Limit { .. } => 13,
            ReaderFault::Memory { .. } => 31,
            ReaderFault::OtherPlaces { .. } => 35,
        }
    }

    fn layer(&self) -> Layer {
        Layer::Reader
    }

    fn spot(&self) -> u64 {
        match self {
            ReaderFault::Form { line: spot }
            | ReaderFault::Section { line: spot }
            | ReaderFault::Limit { which: spot }
            | ReaderFault::Memory { needed: spot } => *spot,
            ReaderFault::OtherPlaces { places } => u64::from(*places),
        }
    }
}
