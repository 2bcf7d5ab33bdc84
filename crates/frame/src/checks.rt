// The checks of a row by itself, which a duct and a frame both ask.
ghost use Rattle.std.specs.Prelude.{◌≡◌, nat_le};
ghost use Rattle.frame.specs.Verdict.{accepted, length_verdict, refuse};

use crate::fault::FrameFault;
use ways::row::Row;

// Its length is within the limits.
pub(crate) fn check_length(row: Row) -> Result<(), FrameFault>
    ensures { result ≡ length_verdict row.length accepted }
{
    match row.length {
        1..=1_000_000 => Ok(()),
        _ => Err(FrameFault::Length),
    }
}

// Its smaller end comes first.
pub(crate) fn check_ends(row: Row) -> Result<(), FrameFault>
    ensures { result ≡ refuse (nat_le row.second row.first) (FrameFault.Ends row.first) accepted }
{
    if row.first >= row.second {
        return Err(FrameFault::Ends { first: row.first });
    }
    Ok(())
}
