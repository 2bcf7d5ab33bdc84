// The marks of a word: one word and no list of flags, so that the count of its ones is how many fittings stand.
ghost use Rattle.std.specs.Prelude.{◌≡◌, ℕ, ◌<◌, not, if◌then◌else◌, nat_eq};
ghost use Rattle.job.specs.Marks.{marked};

// Whether the word has the mark.
pub(crate) fn has(word: u64, mark: u32) -> bool
    ensures { result ≡ marked word mark }
{
    mark < 64 && (word >> mark) & 1 == 1
}

// The word with the mark turned.
#[tactic(auto, using(crate::proofs::Bits::turned_mark))]
pub(crate) fn turned(word: u64, mark: u32) -> u64
    requires { mark < 64 }
    ensures { (k : ℕ) → marked result k ≡ (if nat_eq k mark then not (marked word k) else marked word k) }
{
    word ^ (1 << mark)
}
