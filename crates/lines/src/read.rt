// A line's text into what it says.
ghost use Rattle.lines.specs.Said.{Reads, ReadsAt, Alone, Ducting, Fitted};

use crate::fault::ReaderFault;
use crate::line::{Line, ReadFitting};
use crate::list::{listed, next, short_of};
use crate::numeral::number;
use ways::row::Row;

// Reads a line without its end, the one of this number in its ticket.
pub fn read_line(text: &[u8], at: u64) -> Result<Line<ReadFitting>, ReaderFault>
    ensures { ReadsAt text.now at result }
{
    // No `ok_or`: it copies the line once more, and a short line takes twice as long.
    match read(text) {
        Some(line) => Ok(line),
        None => Err(ReaderFault::Form { line: at }),
    }
}

// The line, or none where the text breaks the form.
fn read(text: &[u8]) -> Option<Line<ReadFitting>>
    ensures { Reads text.now result }
{
    // A line is taken apart by one pattern, as the project's rules have it; a pattern has no `?`.
    let [letter, b' ', tail @ ..] = text else {
        return None;
    };
    let (n, rest) = number(tail)?;
    let n = short_of(n);
    match *letter as char {
        'P' => alone(rest, Line::Places { n }),
        'D' => alone(rest, Line::Ducts { m: n }),
        'd' => duct(n, rest),
        'F' => alone(rest, Line::Fittings { k: n }),
        'f' => fitting(n, rest),
        _ => None,
    }
}

// The line, where nothing follows its one number.
fn alone(rest: &[u8], line: Line<ReadFitting>) -> Option<Line<ReadFitting>>
    ensures { Alone rest.now line result }
{
    rest.is_empty().then_some(line)
}

// A duct behind its first number.
fn duct(first: u32, text: &[u8]) -> Option<Line<ReadFitting>>
    ensures { Ducting text.now first result }
{
    let (second, behind) = next(text)?;
    let (length, rest) = next(behind)?;
    alone(
        rest,
        Line::Duct(Row {
            first,
            second: short_of(second),
            length: short_of(length),
        }),
    )
}

// A fitting behind its number.
fn fitting(number: u32, text: &[u8]) -> Option<Line<ReadFitting>>
    ensures { Fitted text.now number result }
{
    let (count, rest) = next(text)?;
    let places = listed(rest)?;
    Some(Line::Fitting(ReadFitting {
        number,
        count,
        places,
    }))
}
