// A group of at most 16 places, of which one is to be reached.
use ways::few::Few;

pub type Group = Few<u32, 16>;
