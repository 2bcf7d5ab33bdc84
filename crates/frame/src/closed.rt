// A closed frame: its ducts, and the neighbours of each place.
ghost use Rattle.std.specs.Prelude.{◌≡◌, ◌<◌, ◌≤◌, length, MatchOption};
ghost use Rattle.frame.specs.Neighbours.{Neighbours};
ghost use Rattle.frame.specs.Of.{duct_row, places_of, rows_of};
ghost use Rattle.frame.specs.Rows.{row_at, Sound};

use crate::arc::Arc;
use crate::duct::Duct;
use crate::frame::ClosedFrame;
use ways::row::Row;

impl ClosedFrame {
    // How many places it has.
    pub fn places(&self) -> u32
        ensures value { result ≡ places_of self.now }
        ensures bound { result ≤ 4096 }
    {
        self.places
    }

    // How many ducts it has.
    pub fn len(&self) -> usize
        ensures value { result ≡ length (rows_of self.now) }
        ensures bound { result ≤ 16384 }
    {
        self.rows.len()
    }

    // Its ducts, as they were added: no row fails the duct's check, and no pair is joined twice.
    pub fn rows(&self) -> &[Row]
        ensures value { result.now ≡ rows_of self.now }
        ensures sound { Sound (places_of self.now) result.now }
    {
        self.rows.as_slice()
    }

    // The duct of this number, or none past the last.
    pub fn duct(&self, i: usize) -> Option<Duct>
        ensures { MatchOption result (length (rows_of self.now) ≤ i) (λ d. (i < length (rows_of self.now)) × (duct_row d ≡ row_at (rows_of self.now) i)) }
    {
        // No `map`: what `of_sound` requires, a closure would have to require too.
        let row = self.rows.get(i)?;
        Some(Duct::of_sound(*row))
    }

    // The arcs that begin at a place, by where they end: none where it is no place.
    pub fn neighbours(&self, place: u32) -> &[Arc]
        ensures { Neighbours (rows_of self.now) place result.now }
    {
        if place >= self.places {
            return &[];
        }
        let start = self.offsets[place as usize];
        let end = self.offsets[place as usize + 1];
        &self.arcs.as_slice()[start..end]
    }
}
