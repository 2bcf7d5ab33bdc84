// A ticket's bytes into a frame and the fittings of a job.
ghost use Rattle.std.specs.Prelude.{◌≡◌, ℕ};
ghost use Rattle.frame.specs.Of.{open_room};
ghost use Rattle.ticket.specs.Runs.{Stands, Same, Did, Answers, answer_of, closing};
ghost use Rattle.ticket.specs.Steps.{State};
ghost use Rattle.ticket.specs.Tickets.{IsText, ReadsBack};

use crate::due::Due;
use crate::fault::TicketFault;
use crate::reading::Reading;
use frame::frame::OpenFrame;
use job::job::Job;
use lines::cut::split_line;
use lines::line::Line;
use lines::read::read_line;

// Empties the frame and the job, and reads a ticket into them. After a refusal they hold what the lines before it say.
pub fn read(bytes: &[u8], frame: &mut OpenFrame, job: &mut Job) -> Result<(), TicketFault>
    ensures answers { Answers bytes.now (open_room frame.old) frame.new job.new (answer_of result) }
    ensures text { IsText bytes.now frame.new job.new (answer_of result) }
    ensures back { ReadsBack bytes.now (open_room frame.old) frame.new job.new (answer_of result) }
{
    frame.empty();
    job.begin(0);
    let mut reading = Reading {
        at: 1,
        due: Due::PlacesLine,
        frame,
        job,
    };
    let mut rest = bytes;
    // No iterator over the lines: the end is judged by the number and the rest that the last line leaves.
    while let Some((line, after)) = split_line(rest) {
        reading.due = reading.take(line)?;
        reading.at += 1;
        rest = after;
    }
    reading.close(rest)
}

impl Reading<'_> {
    // The answer where no line is left.
    fn close(&self, rest: &[u8]) -> Result<(), TicketFault>
        ensures { answer_of result ≡ closing self.now.at self.now.due rest.now }
    {
        if !rest.is_empty() {
            return Err(TicketFault::form(self.at));
        }
        match self.due {
            Due::FittingLines { left: 0, .. } => Ok(()),
            _ => Err(TicketFault::section(self.at)),
        }
    }

    // Reads one line, and does what it says where this one is due: which is due then.
    fn take(&mut self, text: &[u8]) -> Result<Due, TicketFault>
        ensures did { (room : ℕ) (s : State) → Stands room self.old s → Did room self.old.at s text.now self.new.frame.now self.new.job.now result }
        ensures same { Same self.old self.new }
    {
        let at = self.at;
        let line = read_line(text, at).map_err(|fault| TicketFault::Reader { line: at, fault })?;
        match line {
            Line::Places { n } => self.places(n),
            Line::Ducts { m } => self.ducts(m),
            Line::Duct(row) => self.duct(row),
            Line::Fittings { k } => self.fittings(k),
            Line::Fitting(fitting) => self.fitting(&fitting),
        }
    }
}
