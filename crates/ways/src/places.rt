// What is asked of a list of places.
ghost use Rattle.std.specs.Prelude.{◌≡◌};
ghost use Rattle.ways.specs.Places.{outside};

// The first place that is not below n.
pub fn first_outside(n: u32, places: &[u32]) -> Option<u32>
    ensures { result ≡ outside n places.now }
{
    for p in places {
        if *p >= n {
            return Some(*p);
        }
    }
    None
}
