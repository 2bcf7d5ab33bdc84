// A duct: a row that passed the check, with the smaller end first and a length within the limits.
ghost use Rattle.std.specs.Prelude.{◌<◌, ◌≤◌};

mod conversions;
mod methods;
mod shown;

#[derive(Clone, Copy, PartialEq, Eq, Debug)]
pub struct Duct {
    first: u32,
    second: u32,
    length: u32,
    ghost ends: { first < second },
    ghost some_length: { 1 ≤ length },
    ghost no_longer: { length ≤ 1000000 },
}
