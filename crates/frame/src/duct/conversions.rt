// How a duct is made of a row, and a row of a duct.
ghost use Rattle.std.specs.Prelude.{◌≡◌, Err, MatchResult};
ghost use Rattle.frame.specs.Of.{duct_row};
ghost use Rattle.frame.specs.Verdict.{duct_verdict, accepted};

use crate::checks::{check_ends, check_length};
use crate::duct::Duct;
use crate::fault::FrameFault;
use ways::row::Row;

// A row as a duct, by one check: its length, then its ends.
impl TryFrom<Row> for Duct {
    type Error = FrameFault;

    ghost try_from_gives = { λ row r. MatchResult r (λ d. (duct_verdict row ≡ accepted) × (duct_row d ≡ row)) (λ e. duct_verdict row ≡ Err e) };

    fn try_from(row: Row) -> Result<Duct, FrameFault> {
        check_length(row)?;
        check_ends(row)?;
        Ok(Duct::of_sound(row))
    }
}

// A duct as the row that it was made of.
impl From<Duct> for Row {
    ghost from_gives = { λ d row. row ≡ duct_row d };

    fn from(duct: Duct) -> Row {
        Row {
            first: duct.first,
            second: duct.second,
            length: duct.length,
        }
    }
}
