// Text that goes into the room that a vector has: what finds no room is only counted.
ghost use Rattle.std.specs.Prelude.{◌≡◌, ◌^◌, ◌<◌};

#[derive(Drop)]
pub struct Page<'a> {
    pub(crate) out: &'a mut Vec<u8>,
    // How long the text is, up to 64 bits.
    pub(crate) count: u64,
    ghost fits: { count < 2 ^ 64 },
}

impl<'a> Page<'a> {
    // Nothing is written yet.
    pub fn new(out: &'a mut Vec<u8>) -> Self
        ensures same { result.out.ghost_name ≡ out.entry.ghost_name }
        ensures out { result.out.now ≡ out.old }
        ensures count { result.count ≡ 0 }
    {
        Page { out, count: 0 }
    }

    // How long the text is, up to 64 bits.
    pub fn count(&self) -> u64
        ensures { result ≡ self.now.count }
    {
        self.count
    }
}
