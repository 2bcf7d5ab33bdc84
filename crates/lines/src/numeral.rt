// A number at the front of a text.
ghost use Rattle.std.specs.Prelude.{◌≡◌, ◌≤◌, ◌∷◌, length, take, drop};
ghost use Rattle.std.specs.Str.Parse.{AllDigits, digits_value as worth};
ghost use Rattle.lines.specs.Text.{Finds, Stops, held};

// How many digits stand at the front.
fn digits(text: &[u8]) -> usize
    ensures within { result ≤ length text.now }
    ensures front { AllDigits 10 (take result text.now) }
    ensures after { Stops (drop result text.now) }
{
    text.iter()
        .position(|b| !b.is_ascii_digit())
        .unwrap_or(text.len())
}

// The number that digits write, however many, or the largest of 64 bits in place of any above it.
fn value(piece: &[u8]) -> u64
    requires { AllDigits 10 piece.now }
    ensures { result ≡ held (worth 10 piece.now) }
{
    // By `parse` of a `str` a line takes about twice as long to read.
    piece.iter().fold(0, |n: u64, digit| {
        n.saturating_mul(10)
            .saturating_add(u64::from(digit.saturating_sub(b'0')))
    })
}

// The number behind a blank, and what follows its last digit.
pub fn number(text: &[u8]) -> Option<(u64, &[u8])>
    ensures { Finds (32 ∷ text.now) result }
{
    let (piece, rest) = text.split_at(digits(text));
    match piece {
        [] => None,
        [b'0', _, ..] => None,
        _ => Some((value(piece), rest)),
    }
}
