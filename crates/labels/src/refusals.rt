// The number, layer and spot of a fault of labels.
ghost use Rattle.faults.specs.declared.layer.Layer.TheVariants.{Labels as LabelsLayer};
ghost use Rattle.labels.specs.Faults.{number_of, spot_of};

use crate::fault::LabelsFault;
use faults::layer::Layer;
use faults::refusal::Refusal;

impl Refusal for LabelsFault {
    ghost numbered = { number_of };

    ghost layered = { λ _. LabelsLayer };

    ghost spotted = { spot_of };

    fn number(&self) -> u32 {
        match self {
            LabelsFault::Width => 13,
            LabelsFault::Rows { .. }
            | LabelsFault::Counts { .. }
            | LabelsFault::Places { .. }
            | LabelsFault::Records { .. }
            | LabelsFault::Entries { .. } => 31,
            LabelsFault::Order { .. } => 17,
            LabelsFault::TooLong { .. } => 36,
            LabelsFault::NotRight => 37,
        }
    }

    fn layer(&self) -> Layer {
        Layer::Labels
    }

    fn spot(&self) -> u64 {
        match self {
            LabelsFault::Width => 1,
            LabelsFault::Rows { needed: spot }
            | LabelsFault::Counts { needed: spot }
            | LabelsFault::Places { needed: spot }
            | LabelsFault::Records { needed: spot }
            | LabelsFault::Entries { needed: spot }
            | LabelsFault::Order { position: spot }
            | LabelsFault::TooLong { width: spot } => u64::from(*spot),
            LabelsFault::NotRight => 0,
        }
    }
}
