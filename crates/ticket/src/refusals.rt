// The number, layer, spot and line of a ticket's fault.
ghost use Rattle.std.specs.Prelude.{◌≡◌};
ghost use Rattle.ticket.specs.Faults.{number_of, layer_of, spot_of, line_of};

use crate::fault::TicketFault;
use faults::layer::Layer;
use faults::refusal::Refusal;

// Three matches alike: the faults inside are of three types, and the check refuses a function that makes a `dyn` of one and hands it out.
impl Refusal for TicketFault {
    ghost numbered = { number_of };

    ghost layered = { layer_of };

    ghost spotted = { spot_of };

    fn number(&self) -> u32 {
        match self {
            TicketFault::Reader { fault, .. } => fault.number(),
            TicketFault::Frame { fault, .. } => fault.number(),
            TicketFault::Job { fault, .. } => fault.number(),
        }
    }

    fn layer(&self) -> Layer {
        match self {
            TicketFault::Reader { fault, .. } => fault.layer(),
            TicketFault::Frame { fault, .. } => fault.layer(),
            TicketFault::Job { fault, .. } => fault.layer(),
        }
    }

    fn spot(&self) -> u64 {
        match self {
            TicketFault::Reader { fault, .. } => fault.spot(),
            TicketFault::Frame { fault, .. } => fault.spot(),
            TicketFault::Job { fault, .. } => fault.spot(),
        }
    }
}

impl TicketFault {
    // The line that was refused, from 1; a missing line counts as the one after the last.
    pub fn line(&self) -> u64
        ensures { result ≡ line_of self.now }
    {
        match self {
            TicketFault::Reader { line, .. }
            | TicketFault::Frame { line, .. }
            | TicketFault::Job { line, .. } => *line,
        }
    }
}
