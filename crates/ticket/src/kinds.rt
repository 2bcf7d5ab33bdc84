// What each kind of line does where it stands.
ghost use Rattle.std.specs.Prelude.{◌≡◌, ℕ, ◌<◌, List};
ghost use Rattle.lines.specs.Said.{capped, Lists, places as said_places, ducts as said_ducts, duct as said_duct, fittings as said_fittings, fitting as said_fitting};
ghost use Rattle.lines.specs.Text.{held};
ghost use Rattle.ticket.specs.Runs.{Stands, Same, Took};
ghost use Rattle.ticket.specs.Steps.{State};

use crate::checks::{check_duct, check_fitting};
use crate::due::Due;
use crate::fault::TicketFault;
use crate::reading::Reading;
use lines::line::{ReadFitting, TOO_LONG};
use ways::row::Row;

impl Reading<'_> {
    // The number of places, for frame and job.
    pub fn places(&mut self, n: u32) -> Result<Due, TicketFault>
        ensures took { (room : ℕ) (s : State) (v : ℕ) → Stands room self.old s → n ≡ capped v → Took room self.old.at s (said_places v) self.new.frame.now self.new.job.now result }
        ensures same { Same self.old self.new }
    {
        let at = self.at;
        let Due::PlacesLine = self.due else {
            return Err(TicketFault::section(at));
        };
        if n >= TOO_LONG {
            return Err(TicketFault::limit(at, 1));
        }
        self.frame
            .begin(n)
            .map_err(|fault| TicketFault::Frame { line: at, fault })?;
        self.job.begin(n);
        Ok(Due::DuctsLine)
    }

    // The number of ducts.
    pub fn ducts(&self, m: u32) -> Result<Due, TicketFault>
        ensures { (room : ℕ) (s : State) (v : ℕ) → Stands room self.now s → m ≡ capped v → Took room self.now.at s (said_ducts v) self.now.frame.now self.now.job.now result }
    {
        let Due::DuctsLine = self.due else {
            return Err(TicketFault::section(self.at));
        };
        if m > 16_384 {
            return Err(TicketFault::limit(self.at, 1));
        }
        Ok(Due::DuctLines { left: m })
    }

    // A duct, for the frame.
    pub fn duct(&mut self, row: Row) -> Result<Due, TicketFault>
        ensures took { (room : ℕ) (s : State) (a b l : ℕ) → Stands room self.old s → row.first ≡ capped a → row.second ≡ capped b → row.length ≡ capped l → Took room self.old.at s (said_duct a b l) self.new.frame.now self.new.job.now result }
        ensures same { Same self.old self.new }
    {
        let at = self.at;
        let Due::DuctLines { left } = self.due else {
            return Err(TicketFault::section(at));
        };
        check_duct(at, row, left)?;
        self.frame
            .add(row)
            .map_err(|fault| TicketFault::Frame { line: at, fault })?;
        Ok(Due::DuctLines { left: left - 1 })
    }

    // The number of fittings.
    pub fn fittings(&self, k: u32) -> Result<Due, TicketFault>
        ensures { (room : ℕ) (s : State) (v : ℕ) → Stands room self.now s → k ≡ capped v → Took room self.now.at s (said_fittings v) self.now.frame.now self.now.job.now result }
    {
        let Due::DuctLines { left: 0 } = self.due else {
            return Err(TicketFault::section(self.at));
        };
        if k > 64 {
            return Err(TicketFault::limit(self.at, 1));
        }
        Ok(Due::FittingLines { left: k, least: 0 })
    }

    // A fitting, for the job: the first 17 places tell as much as all of them.
    pub fn fitting(&mut self, fitting: &ReadFitting) -> Result<Due, TicketFault>
        ensures took { (room : ℕ) (s : State) (f c : ℕ) (ps : List ℕ) → Stands room self.old s → fitting.now.number ≡ capped f → fitting.now.count ≡ held c → Lists fitting.now.places ps → Took room self.old.at s (said_fitting f c ps) self.new.frame.now self.new.job.now result }
        ensures same { Same self.old self.new }
    {
        let at = self.at;
        let Due::FittingLines { left, least } = self.due else {
            return Err(TicketFault::section(at));
        };
        check_fitting(at, fitting, left, least)?;
        self.job
            .add(fitting.number, fitting.places.front.as_slice())
            .map_err(|fault| TicketFault::Job { line: at, fault })?;
        Ok(Due::FittingLines {
            left: left - 1,
            least: fitting.number + 1,
        })
    }
}
