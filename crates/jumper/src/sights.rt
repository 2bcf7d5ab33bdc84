// The nearest place as it is seen without a jumper's duct and over it, by lengths that may be too long for a distance.
ghost use Rattle.std.specs.Prelude.{◌≡◌, ◌≤◌, IfSome};
ghost use Rattle.jumper.specs.Crossings.{via, sooner};

use ways::lesser::lesser;
use ways::near::Near;

// What is found from one end of the duct, from as far before its other end.
pub(crate) fn seen_via(
    first: Option<u32>,
    length: u32,
    found: Option<Near<u32>>,
) -> Option<Near<u64>>
    ensures { result ≡ via first length found }
{
    first.zip(found).map(|(d, near)| Near {
        distance: u64::from(d) + u64::from(length) + u64::from(near.distance),
        place: near.place,
    })
}

// The nearer, and of the smaller number where both are as near: `lesser`, in the words of a jumper's definitions.
pub(crate) fn sooner_of(one: Option<Near<u64>>, other: Option<Near<u64>>) -> Option<Near<u64>>
    ensures { result ≡ sooner one other }
{
    lesser(one, other)
}

// What is seen at a distance, which is known to fit 32 bits: a `try_from` would refuse, and nothing is to be refused.
pub(crate) fn found_of(seen: Option<Near<u64>>) -> Option<Near<u32>>
    requires { IfSome seen (λ s. s.distance ≤ 4095000000) }
    ensures { result ≡ seen }
{
    seen.map(|s| Near {
        distance: s.distance as u32,
        place: s.place,
    })
}
