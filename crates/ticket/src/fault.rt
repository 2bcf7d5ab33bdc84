// What reading a ticket refuses with: the fault of the reader, the frame or the job as it is, and the line, in a case for each.
use frame::fault::FrameFault;
use job::fault::JobFault;
use lines::fault::ReaderFault;

#[derive(Clone, Copy, PartialEq, Eq, Debug)]
pub enum TicketFault {
    Reader { line: u64, fault: ReaderFault },
    Frame { line: u64, fault: FrameFault },
    Job { line: u64, fault: JobFault },
}
