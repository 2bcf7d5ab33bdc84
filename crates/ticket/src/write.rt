// A frame and the fittings of a job into a ticket's bytes.
ghost use Rattle.std.specs.Prelude.{◌≡◌, ◌-◌, ◌<◌, ◌++◌, length, is_ok, if◌then◌else◌, vec_len, vec_capacity};
ghost use Rattle.std.specs.List.{flat_map};
ghost use Rattle.lines.specs.Pages.{Adds};
ghost use Rattle.frame.specs.Of.{places_of, rows_of};
ghost use Rattle.frame.specs.Rows.{Sound};
ghost use Rattle.job.specs.Held.{held as holding};
ghost use Rattle.ticket.specs.Tickets.{Wrote, duct_text, fit_text, entry, fits_of, text_of, write_verdict, Readable};

use frame::frame::ClosedFrame;
use job::job::Job;
use lines::fault::ReaderFault;
use lines::line::{Line, WrittenFitting};
use lines::page::Page;
use ways::row::Row;

// Appends the ticket of the frame and the job, in the room that `out` has. A refusal appends nothing.
pub fn write(frame: &ClosedFrame, job: &Job, out: &mut Vec<u8>) -> Result<(), ReaderFault>
    ensures value { result ≡ write_verdict (places_of frame.now) job.now.heading.places (vec_capacity out.old - vec_len out.old) (length (text_of frame.now job.now)) }
    ensures items { out.new.items ≡ (if is_ok result then out.old.items ++ text_of frame.now job.now else out.old.items) }
    ensures capacity { vec_capacity out.new ≡ vec_capacity out.old }
    ensures readable { Readable frame.now job.now result }
{
    let places = frame.places();
    if places == 0 || places != job.places() {
        return Err(ReaderFault::OtherPlaces { places });
    }
    let old = out.len();
    let room = (out.capacity() - old) as u64;
    let needed = write_text(frame, job, out);
    if room < needed {
        out.truncate(old);
        return Err(ReaderFault::Memory { needed });
    }
    Ok(())
}

// Appends the whole text as far as there is room: how long it is, up to 64 bits.
fn write_text(frame: &ClosedFrame, job: &Job, out: &mut Vec<u8>) -> u64
    ensures wrote { Wrote out.old out.new result (text_of frame.now job.now) }
    ensures sound { Sound (places_of frame.now) (rows_of frame.now) }
{
    let mut page = Page::new(out);
    page.line(Line::Places { n: frame.places() });
    page.line(Line::Ducts {
        m: frame.len() as u32,
    });
    write_ducts(frame.rows(), &mut page);
    page.line(Line::Fittings { k: job.count() });
    write_fittings(job, &mut page);
    page.count()
}

// Appends the lines of the ducts.
fn write_ducts(rows: &[Row], page: &mut Page)
    ensures { Adds page.old page.new (flat_map duct_text rows.now) }
{
    for row in rows {
        page.line(Line::Duct(*row));
    }
}

// Appends the lines of the standing fittings.
fn write_fittings(job: &Job, page: &mut Page)
    ensures { Adds page.old page.new (flat_map fit_text (fits_of job.now)) }
{
    for number in 0..64 {
        write_fitting(job, number, page);
    }
}

// Appends the line of a fitting, if it stands.
fn write_fitting(job: &Job, number: u32, page: &mut Page)
    ensures { Adds page.old page.new (flat_map fit_text (entry number (holding job.now number))) }
{
    if let Some(places) = job.places_of(number) {
        page.line(Line::Fitting(WrittenFitting { number, places }));
    }
}
