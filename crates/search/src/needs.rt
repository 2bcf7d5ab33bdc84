// What a search wants: enough memory, and places that are there.
ghost use Rattle.std.specs.Prelude.{◌≡◌, length, Ok, Err, nat_lt};
ghost use Rattle.ways.specs.Options.{pick};
ghost use Rattle.frame.specs.Of.{places_of, rows_of};
ghost use Rattle.oracle.specs.declared.fault.OracleFault.TheVariants.{NoPlace};
ghost use Rattle.search.specs.Plain.{memory_verdict};

use frame::frame::ClosedFrame;
use oracle::fault::OracleFault;

// Refuses less than n records, or else room for less than 2m + 1 heap entries.
pub(crate) fn enough(frame: &ClosedFrame, records: usize, room: usize) -> Result<(), OracleFault>
    ensures { result ≡ memory_verdict (places_of frame.now) (length (rows_of frame.now)) records room }
{
    let places = frame.places();
    if records < places as usize {
        return Err(OracleFault::Records { needed: places });
    }
    let needed = 2 * frame.len() + 1;
    if room < needed {
        return Err(OracleFault::Entries {
            needed: needed as u32,
        });
    }
    Ok(())
}

// Refuses what is not below the number of places.
pub(crate) fn inside(places: u32, place: u32) -> Result<(), OracleFault>
    ensures { result ≡ pick (nat_lt place places) (Ok tt) (Err (NoPlace place)) }
{
    if place < places {
        Ok(())
    } else {
        Err(OracleFault::NoPlace { place })
    }
}
