// Whether the width is within its limits and the memory suffices.
ghost use Rattle.std.specs.Prelude.{◌≡◌, length};
ghost use Rattle.frame.specs.Of.{places_of, rows_of};
ghost use Rattle.labels.specs.Building.{memory_verdict};

use crate::fault::LabelsFault;
use crate::memory::Sizes;
use frame::frame::ClosedFrame;

// The first check that fails, in the order of the rules, or acceptance.
pub fn check_memory(frame: &ClosedFrame, width: u32, sizes: Sizes) -> Result<(), LabelsFault>
    ensures { result ≡ memory_verdict (places_of frame.now) (length (rows_of frame.now)) width sizes }
{
    let n = frame.places();
    let entries = 2 * frame.len() as u32 + 1;
    if !(1..=4096).contains(&width) {
        return Err(LabelsFault::Width);
    }
    if sizes.rows != (n * width) as usize {
        return Err(LabelsFault::Rows { needed: n * width });
    }
    if sizes.counts != n as usize {
        return Err(LabelsFault::Counts { needed: n });
    }
    if sizes.order != n as usize {
        return Err(LabelsFault::Places { needed: n });
    }
    if sizes.records < n as usize {
        return Err(LabelsFault::Records { needed: n });
    }
    if sizes.entries < entries as usize {
        return Err(LabelsFault::Entries { needed: entries });
    }
    Ok(())
}
