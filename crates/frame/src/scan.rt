// Whether a pair of places is joined already.
ghost use Rattle.std.specs.Prelude.{◌≡◌};
ghost use Rattle.frame.specs.Rows.{paired};

use ways::row::Row;

// A row has these ends, in this order.
pub(crate) fn is_paired(rows: &[Row], first: u32, second: u32) -> bool
    ensures { result ≡ paired rows.now first second }
{
    rows.iter()
        .any(|row| row.first == first && row.second == second)
}
