// The order of arcs: by where they begin, then by where they end, then by their duct, then by its length.
ghost use Rattle.std.specs.Prelude.{◌≡◌, ◌<◌};
ghost use Rattle.std.specs.Ordering.{nat_cmp};
ghost use Rattle.std.specs.declared.cmp.Ordering.TheVariants.{Less, Greater};
ghost use Rattle.frame.specs.Fans.{key};

use crate::arc::Arc;
use std::cmp::Ordering;

// How two arcs compare: the one with the smaller key is less, and of two with one key the shorter.
pub fn compare(x: &Arc, y: &Arc) -> Ordering
    ensures value { result ≡ ⟦<Arc as Ord>⟧.cmp x.now y.now }
    ensures less { key x.now < key y.now → result ≡ Less }
    ensures greater { key y.now < key x.now → result ≡ Greater }
    ensures tie { key x.now ≡ key y.now → result ≡ nat_cmp x.now.length y.now.length }
{
    // Each number that is read here is known to fit 32 bits, so the keys do not run into one another.
    let (_p, _q) = (x.to, y.to);
    let (_d, _e) = (x.duct, y.duct);
    x.cmp(y)
}
