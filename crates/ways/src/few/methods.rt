// How a few are put together, and what they are.
ghost use Rattle.std.specs.Prelude.{◌≡◌, ◌≤◌, ◌<◌, ⊤, [], ◌∷◌, ◌++◌, length, MatchResult};
ghost use Rattle.ways.specs.Few.{members};

use crate::few::{Few, Full};
use std::alloc::AllocError;

impl<T: Copy, const N: usize> Few<T, N> {
    // None yet; `blank` stands in the free room.
    pub fn new(blank: T) -> Few<T, N>
        ensures { members result ≡ [] }
    {
        Few {
            count: 0,
            items: [blank; N],
        }
    }

    // Those that there are.
    pub fn as_slice(&self) -> &[T]
        ensures value { result.now ≡ members self.now }
        ensures few { length result.now ≤ N }
    {
        &self.items[..self.count]
    }

    // Puts one behind the others. A refusal changes nothing.
    pub fn push(&mut self, item: T) -> Result<(), Full>
        ensures { MatchResult result (λ _. members self.new ≡ members self.old ++ item ∷ []) (λ _. (members self.new ≡ members self.old) × (length (members self.old) ≡ N)) }
    {
        if self.count == N {
            return Err(Full);
        }
        self.items[self.count] = item;
        self.count += 1;
        Ok(())
    }
}

// By hand: a derive is refused where a ghost field stands beside a type parameter.
impl<T: Copy, const N: usize> Clone for Few<T, N> {
    ghost is_infallible = { λ _. ⊤ };

    ghost is_clone = { λ x y. y ≡ x };

    fn clone(&self) -> Result<Few<T, N>, AllocError> {
        Ok(*self)
    }
}

// As many as there is room for.
impl<const N: usize> TryFrom<&[u32]> for Few<u32, N> {
    type Error = Full;

    ghost try_from_gives = { λ xs r. MatchResult r (λ f. members f ≡ xs.now) (λ _. N < length xs.now) };

    fn try_from(places: &[u32]) -> Result<Few<u32, N>, Full> {
        if places.len() > N {
            return Err(Full);
        }
        let mut items = [0; N];
        items[..places.len()].copy_from_slice(places);
        Ok(Few {
            count: places.len(),
            items,
        })
    }
}
