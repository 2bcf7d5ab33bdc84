// A fault of any layer, by what a user reads of it.
ghost use Rattle.std.specs.Prelude.{◌≡◌, ℕ};
ghost use Rattle.faults.specs.declared.layer.Layer.{Layer};

use crate::layer::Layer;

pub trait Refusal {
    ghost numbered: { Self → ℕ };

    ghost layered: { Self → Layer };

    ghost spotted: { Self → ℕ };

    // The number of the rule that was broken.
    fn number(&self) -> u32
        ensures { result ≡ numbered self.now };

    // The layer that refused.
    fn layer(&self) -> Layer
        ensures { result ≡ layered self.now };

    // What was wrong or wanted: a place, a line, a count, as the rule of that number says.
    fn spot(&self) -> u64
        ensures { result ≡ spotted self.now };
}
