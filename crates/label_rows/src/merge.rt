// The merge of two rows: one function, whoever asks.
ghost use Rattle.std.specs.Prelude.{◌≡◌, Some};
ghost use Rattle.hubs.specs.Merge.{merge, sooner};

use hubs::entry::Entry;
use hubs::meeting::Meeting;

// The best so far, and one more behind it. By the sum alone: a derived order would compare ranks too, and a pair made for it is no plainer.
fn kept(best: Option<Meeting>, m: Meeting) -> Option<Meeting>
    ensures { result ≡ sooner best (Some m) }
{
    match best {
        Some(k) if k.sum <= m.sum => best,
        _ => Some(m),
    }
}

// The least sum that two rows share, and the first hub that has it.
#[tactic(auto, using(crate::proofs::Merges::ended))]
pub fn merge_rows(xs: &[Entry], ys: &[Entry]) -> Option<Meeting>
    ensures { result ≡ merge xs.now ys.now }
{
    let mut left = xs;
    let mut right = ys;
    let mut best = None;
    while let ([x, later @ ..], [y, behind @ ..]) = (left, right) {
        if x.rank < y.rank {
            left = later;
        } else if y.rank < x.rank {
            right = behind;
        } else {
            let sum = u64::from(x.distance) + u64::from(y.distance);
            best = kept(best, Meeting { rank: x.rank, sum });
            left = later;
            right = behind;
        }
    }
    best
}
