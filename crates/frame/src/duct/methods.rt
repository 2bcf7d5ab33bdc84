// What a duct tells.
ghost use Rattle.std.specs.Prelude.{◌≡◌};
ghost use Rattle.frame.specs.Of.{duct_row};
ghost use Rattle.frame.specs.Rows.{IsDuct};

use crate::duct::Duct;
use ways::row::Row;

impl Duct {
    // The row as a duct, with no check: it is known to be one.
    pub(crate) fn of_sound(row: Row) -> Duct
        requires { IsDuct row }
        ensures { duct_row result ≡ row }
    {
        Duct {
            first: row.first,
            second: row.second,
            length: row.length,
        }
    }

    // The smaller end.
    pub fn first(&self) -> u32
        ensures { result ≡ (duct_row self.now).first }
    {
        self.first
    }

    // The larger end.
    pub fn second(&self) -> u32
        ensures { result ≡ (duct_row self.now).second }
    {
        self.second
    }

    // The length in millimetres.
    pub fn length(&self) -> u32
        ensures { result ≡ (duct_row self.now).length }
    {
        self.length
    }
}
