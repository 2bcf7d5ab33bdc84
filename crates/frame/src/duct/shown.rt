// How a duct prints: its ends, and its length in millimetres.
ghost use Rattle.std.specs.Prelude.{Some};
ghost use Rattle.frame.specs.Of.{duct_text};

use crate::duct::Duct;
use std::fmt;

impl fmt::Display for Duct {
    ghost output = { λ d. Some (duct_text d) };

    fn fmt<W: fmt::Write>(&self, f: &mut fmt::Formatter<W>) -> fmt::Result {
        write!(f, "{}-{} {} mm", self.first, self.second, self.length)
    }
}
