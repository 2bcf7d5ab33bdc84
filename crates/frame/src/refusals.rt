// The number, layer and spot of a frame's fault.
ghost use Rattle.faults.specs.declared.layer.Layer.TheVariants.{Frame as FrameLayer};
ghost use Rattle.frame.specs.Faults.{number_of, spot_of};

use crate::fault::FrameFault;
use faults::layer::Layer;
use faults::refusal::Refusal;

impl Refusal for FrameFault {
    ghost numbered = { number_of };

    ghost layered = { λ _. FrameLayer };

    ghost spotted = { spot_of };

    fn number(&self) -> u32 {
        match self {
            FrameFault::Places | FrameFault::Length => 13,
            FrameFault::Ends { .. } => 14,
            FrameFault::NoPlace { .. } => 15,
            FrameFault::NoRoom { .. } | FrameFault::Order { .. } | FrameFault::Entries { .. } => 31,
        }
    }

    fn layer(&self) -> Layer {
        Layer::Frame
    }

    fn spot(&self) -> u64 {
        let spot = match self {
            FrameFault::Places => 1,
            FrameFault::Length => 3,
            FrameFault::NoPlace { place: spot }
            | FrameFault::Ends { first: spot }
            | FrameFault::NoRoom { needed: spot }
            | FrameFault::Order { needed: spot }
            | FrameFault::Entries { needed: spot } => *spot,
        };
        u64::from(spot)
    }
}
