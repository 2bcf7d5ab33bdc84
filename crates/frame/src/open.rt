// An open frame: its number of places is given, ducts are added, and it is closed.
ghost use Rattle.std.specs.Prelude.{◌≡◌, ◌+◌, min, nat_le, length, [], ◌∷◌, ◌++◌, is_ok, IfOk, if◌then◌else◌};
ghost use Rattle.frame.specs.Of.{open_places, open_room, open_rows, places_of, rows_of};
ghost use Rattle.frame.specs.Rows.{paired};
ghost use Rattle.frame.specs.Verdict.{places_verdict, refuse, verdict, accepted};

use crate::arc::Arc;
use crate::checks::{check_ends, check_length};
use crate::fault::FrameFault;
use crate::frame::{ClosedFrame, OpenFrame};
use crate::laying::lay;
use crate::scan::is_paired;
use std::alloc::{AllocError, Global};
use ways::row::Row;

// Of a call that changes it, each part that stays is said: no type relates what was to what is.
impl OpenFrame {
    // An emptied frame with room for so many ducts, at most 16,384. Fails only for want of memory.
    pub fn new(heap: Global, room: u32) -> Result<OpenFrame, AllocError>
        ensures { IfOk result (λ f. (open_places f ≡ 0) × (open_rows f ≡ []) × (open_room f ≡ min room 16384)) }
    {
        let room = room.min(16_384);
        let rows = Vec::with_capacity(heap, room as usize)?;
        let arcs = Vec::with_capacity(heap, 2 * room as usize)?;
        let offsets = Vec::from_elem(heap, 0, 4097)?;
        Ok(OpenFrame {
            places: 0,
            room,
            rows,
            offsets,
            arcs,
        })
    }

    // How many places it has: 0 while it is emptied.
    pub fn places(&self) -> u32
        ensures { result ≡ open_places self.now }
    {
        self.places
    }

    // How many ducts it has room for.
    pub fn room(&self) -> u32
        ensures { result ≡ open_room self.now }
    {
        self.room
    }

    // Its ducts, as they were added.
    pub fn rows(&self) -> &[Row]
        ensures { result.now ≡ open_rows self.now }
    {
        self.rows.as_slice()
    }

    // Takes its places and ducts away.
    pub fn empty(&mut self)
        ensures places { open_places self.new ≡ 0 }
        ensures rows { open_rows self.new ≡ [] }
        ensures room { open_room self.new ≡ open_room self.old }
    {
        self.places = 0;
        self.rows.clear();
        self.arcs.clear();
    }

    // Gives it its number of places anew, and no ducts. A refusal changes nothing.
    pub fn begin(&mut self, places: u32) -> Result<(), FrameFault>
        ensures value { result ≡ places_verdict places }
        ensures places { open_places self.new ≡ (if is_ok result then places else open_places self.old) }
        ensures rows { open_rows self.new ≡ (if is_ok result then [] else open_rows self.old) }
        ensures room { open_room self.new ≡ open_room self.old }
    {
        if places < 1 || places > 4096 {
            return Err(FrameFault::Places);
        }
        self.empty();
        self.places = places;
        Ok(())
    }

    // Adds a duct after the others. A refusal changes nothing.
    pub fn add(&mut self, row: Row) -> Result<(), FrameFault>
        ensures value { result ≡ verdict (open_places self.old) (open_room self.old) (open_rows self.old) row }
        ensures rows { open_rows self.new ≡ (if is_ok result then open_rows self.old ++ row ∷ [] else open_rows self.old) }
        ensures places { open_places self.new ≡ open_places self.old }
        ensures room { open_room self.new ≡ open_room self.old }
    {
        self.check(row)?;
        self.push(row);
        Ok(())
    }

    // Cannot fail.
    pub fn close(self) -> ClosedFrame
        ensures places { places_of result ≡ open_places self }
        ensures rows { rows_of result ≡ open_rows self }
    {
        let OpenFrame {
            places,
            room: _,
            rows,
            mut offsets,
            mut arcs,
        } = self;
        arcs.sort_unstable();
        lay(&arcs, &mut offsets);
        ClosedFrame {
            places,
            rows,
            offsets,
            arcs,
        }
    }

    // The first check that the row fails, or acceptance.
    fn check(&self, row: Row) -> Result<(), FrameFault>
        ensures { result ≡ verdict (open_places self.now) (open_room self.now) (open_rows self.now) row }
    {
        check_length(row)?;
        self.check_room()?;
        self.check_place(row.first)?;
        self.check_place(row.second)?;
        check_ends(row)?;
        self.check_pair(row)
    }

    // There is room for one duct more.
    fn check_room(&self) -> Result<(), FrameFault>
        ensures { result ≡ refuse (nat_le (open_room self.now) (length (open_rows self.now))) (FrameFault.NoRoom (length (open_rows self.now) + 1)) accepted }
    {
        let count = self.rows.len() as u32;
        if count >= self.room {
            return Err(FrameFault::NoRoom { needed: count + 1 });
        }
        Ok(())
    }

    // The place is one of its own.
    fn check_place(&self, place: u32) -> Result<(), FrameFault>
        ensures { result ≡ refuse (nat_le (open_places self.now) place) (FrameFault.NoPlace place) accepted }
    {
        if place >= self.places {
            return Err(FrameFault::NoPlace { place });
        }
        Ok(())
    }

    // The ends of the row are not joined already.
    fn check_pair(&self, row: Row) -> Result<(), FrameFault>
        ensures { result ≡ refuse (paired (open_rows self.now) row.first row.second) (FrameFault.Ends row.first) accepted }
    {
        if is_paired(&self.rows, row.first, row.second) {
            return Err(FrameFault::Ends { first: row.first });
        }
        Ok(())
    }

    // Appends a row that passes the check, and its two arcs.
    fn push(&mut self, row: Row)
        requires { verdict (open_places self.old) (open_room self.old) (open_rows self.old) row ≡ accepted }
        ensures rows { open_rows self.new ≡ open_rows self.old ++ row ∷ [] }
        ensures places { open_places self.new ≡ open_places self.old }
        ensures room { open_room self.new ≡ open_room self.old }
    {
        let duct = self.rows.len() as u32;
        self.rows.push_reserved(row);
        self.arcs.push_reserved(Arc {
            from: row.first,
            to: row.second,
            duct,
            length: row.length,
        });
        self.arcs.push_reserved(Arc {
            from: row.second,
            to: row.first,
            duct,
            length: row.length,
        });
    }
}
