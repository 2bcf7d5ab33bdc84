// Whether an order lists each place once.
ghost use Rattle.std.specs.Prelude.{◌≡◌, ℕ, ◌<◌, ◌≤◌, false, length};
ghost use Rattle.labels.specs.Orders.{Judged};
ghost use Rattle.labels.specs.State.{listed};

use crate::fault::LabelsFault;
use crate::record::Record;

// Marks no place as listed. The search's records are cleared of a mark alike; a function of both, with a closure for one assignment, is no plainer.
fn unlist(records: &mut [Record])
    ensures { (v : ℕ) → listed records.new v ≡ false }
{
    for record in records.iter_mut() {
        record.listed = false;
    }
}

// Refuses an order that repeats a place or leaves the frame, with the first position where it does.
pub(crate) fn check_order(order: &[u32], records: &mut [Record]) -> Result<(), LabelsFault>
    requires few { length order.now ≤ 4096 }
    requires enough { length order.now ≤ length records.old }
    ensures { Judged (length order.now) order.now result }
{
    unlist(records);
    let n = order.len() as u32;
    for (i, place) in order.iter().enumerate() {
        if *place >= n || records[*place as usize].listed {
            return Err(LabelsFault::Order { position: i as u32 });
        }
        records[*place as usize].listed = true;
    }
    Ok(())
}
