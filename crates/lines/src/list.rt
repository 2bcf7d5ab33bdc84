// A list of numbers, each with one blank before it.
ghost use Rattle.std.specs.Prelude.{◌≡◌, ℕ, ◌+◌, ◌^◌, ◌<◌, List, [], ◌∷◌, ◌++◌};
ghost use Rattle.lines.specs.Text.{Finds, held};
ghost use Rattle.lines.specs.Said.{Lists, Listing, capped};

use crate::line::{Listed, TOO_LONG};
use crate::numeral::number;
use ways::few::Few;

// A number, or ten million in place of any that has more than seven digits.
pub fn short_of(n: u64) -> u32
    ensures { result ≡ capped n }
{
    n.min(TOO_LONG as u64) as u32
}

// The number at the front, with one blank before it, and what follows its last digit.
pub fn next(text: &[u8]) -> Option<(u64, &[u8])>
    ensures { Finds text.now result }
{
    number(text.strip_prefix(b" ")?)
}

impl Listed {
    // One more number.
    fn push(&mut self, n: u64)
        requires { self.old.count + 1 < 2 ^ 63 }
        ensures { (ns : List ℕ) (v : ℕ) → Lists self.old ns → n ≡ held v → Lists self.new (ns ++ v ∷ []) }
    {
        // What finds no room is only counted.
        let _ = self.front.push(short_of(n));
        if self.short == self.count && n < TOO_LONG as u64 {
            self.short += 1;
        }
        self.count += 1;
    }
}

// The numbers of a text that has nothing else.
pub fn listed(text: &[u8]) -> Option<Listed>
    ensures { Listing text.now result }
{
    let mut rest = text;
    let mut list = Listed {
        count: 0,
        front: Few::new(0),
        short: 0,
    };
    while !rest.is_empty() {
        let (n, after) = next(rest)?;
        list.push(n);
        rest = after;
    }
    Some(list)
}
