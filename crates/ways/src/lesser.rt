// The lesser of two of any kind.
ghost use Rattle.std.specs.Prelude.{◌≡◌};
ghost use Rattle.ways.specs.Lesser.{lesser_by};

// The lesser of two, the first of equals; where one is missing, the other.
pub fn lesser<T: Ord + Copy>(first: Option<T>, other: Option<T>) -> Option<T>
    ensures { result ≡ lesser_by T.Ord.cmp first other }
{
    match (first, other) {
        (Some(p), Some(q)) => Some(p.min(q)),
        (Some(_), None) => first,
        (None, _) => other,
    }
}
