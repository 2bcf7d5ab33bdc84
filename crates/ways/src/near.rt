// A place and its distance from another. The nearer is the lesser, and of two as near that of the smaller number.
ghost use Rattle.std.specs.Prelude.{◌≡◌};

use std::fmt;

#[derive(Clone, Copy, PartialEq, Eq, PartialOrd, Ord)]
pub struct Near<D> {
    pub distance: D,
    pub place: u32,
}

// The same place at the same distance, told in 64 bits.
impl From<Near<u32>> for Near<u64> {
    ghost from_gives = { λ near wide. wide ≡ near };

    fn from(near: Near<u32>) -> Near<u64> {
        Near {
            distance: u64::from(near.distance),
            place: near.place,
        }
    }
}

// By hand, with the place first: a derive would print the fields in the turn that the order wants.
impl<D: fmt::Debug> fmt::Debug for Near<D> {
    fn fmt<W: fmt::Write>(&self, f: &mut fmt::Formatter<W>) -> fmt::Result {
        f.debug_struct("Near")
            .field("place", &self.place)
            .field("distance", &self.distance)
            .finish()
    }
}
