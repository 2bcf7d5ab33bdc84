// The reader's own checks of a line's numbers.
ghost use Rattle.std.specs.Prelude.{◌≡◌, ℕ, ◌<◌, ◌≤◌, List, IfOk};
ghost use Rattle.lines.specs.Said.{capped, Lists};
ghost use Rattle.lines.specs.Text.{held};
ghost use Rattle.ticket.specs.Faults.{form as form_of, section as section_of, limit as limit_of};
ghost use Rattle.ticket.specs.Runs.{answer_of};
ghost use Rattle.ticket.specs.Steps.{Finds, duct_checks, fitting_checks};

use crate::fault::TicketFault;
use job::fault::JobFault;
use lines::fault::ReaderFault;
use lines::line::{ReadFitting, TOO_LONG};
use ways::row::Row;

impl TicketFault {
    // 11 at a line.
    pub(crate) fn form(at: u64) -> Self
        ensures { result ≡ form_of at }
    {
        TicketFault::Reader {
            line: at,
            fault: ReaderFault::Form { line: at },
        }
    }

    // 12 at a line.
    pub(crate) fn section(at: u64) -> Self
        ensures { result ≡ section_of at }
    {
        TicketFault::Reader {
            line: at,
            fault: ReaderFault::Section { line: at },
        }
    }

    // 13 at a line, of one of its numbers.
    pub(crate) fn limit(at: u64, which: u64) -> Self
        ensures { result ≡ limit_of at which }
    {
        TicketFault::Reader {
            line: at,
            fault: ReaderFault::Limit { which },
        }
    }
}

// Checks a duct's line where so many are due, before the frame looks at it.
pub fn check_duct(at: u64, row: Row, left: u32) -> Result<(), TicketFault>
    ensures finds { (a b l : ℕ) → row.first ≡ capped a → row.second ≡ capped b → row.length ≡ capped l → Finds (answer_of result) (duct_checks at left a b l) }
    ensures fine { IfOk result (λ _. (0 < left) × (row.first < 10000000) × (row.second < 10000000) × (row.length < 10000000)) }
{
    if left == 0 {
        return Err(TicketFault::section(at));
    }
    if row.first >= TOO_LONG {
        return Err(TicketFault::limit(at, 1));
    }
    if row.second >= TOO_LONG {
        return Err(TicketFault::limit(at, 2));
    }
    if row.length >= TOO_LONG {
        return Err(TicketFault::limit(at, 3));
    }
    Ok(())
}

// Checks a fitting's line where so many are due, before the job looks at it.
pub fn check_fitting(
    at: u64,
    fitting: &ReadFitting,
    left: u32,
    least: u32,
) -> Result<(), TicketFault>
    ensures finds { (f c : ℕ) (ps : List ℕ) → fitting.now.number ≡ capped f → fitting.now.count ≡ held c → Lists fitting.now.places ps → least ≤ 64 → Finds (answer_of result) (fitting_checks at left least f c ps) }
    ensures fine { IfOk result (λ _. (0 < left) × (least ≤ fitting.now.number) × (fitting.now.number ≤ 63) × (fitting.now.places.count ≤ fitting.now.places.short)) }
{
    let ReadFitting {
        number,
        count,
        places,
    } = fitting;
    if left == 0 || *count != places.count as u64 || *number < least {
        return Err(TicketFault::section(at));
    }
    if *number >= TOO_LONG {
        return Err(TicketFault::limit(at, 1));
    }
    if *number > 63 {
        return Err(TicketFault::Job {
            line: at,
            fault: JobFault::Number,
        });
    }
    if *count >= TOO_LONG as u64 {
        return Err(TicketFault::limit(at, 2));
    }
    if places.short < places.count {
        return Err(TicketFault::limit(at, (places.short as u64).saturating_add(3)));
    }
    Ok(())
}
