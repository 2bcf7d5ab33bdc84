// A few of one kind: the first `count` of an array.
// An array with a length beside it, copied as a whole and without memory of its own: who holds one asks for none, and the kit's ArrayVec is not copied.
ghost use Rattle.std.specs.Prelude.{◌≤◌};

mod methods;

// There is no room for one more.
#[derive(Clone, Copy, PartialEq, Eq, Debug)]
pub struct Full;

#[derive(Copy)]
pub struct Few<T, const N: usize> {
    count: usize,
    items: [T; N],
    ghost few: { count ≤ N },
}
