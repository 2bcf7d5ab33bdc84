// A frame: open while ducts are added, and then closed.
ghost use Rattle.std.specs.Prelude.{◌≡◌, ◌*◌, ◌≤◌, vec_len, vec_capacity};
ghost use Rattle.frame.specs.Rows.{Kept};
ghost use Rattle.frame.specs.Fans.{Sealed, arcs_from};

use crate::arc::Arc;
use ways::row::Row;

// The memory of the closed frame is all there from the start, so that neither adding nor closing can want any.
#[derive(Drop)]
pub struct OpenFrame {
    pub(crate) places: u32,
    // A number of its own beside the rows: a Vec may hold more than was asked of it, and the room is a promise.
    pub(crate) room: u32,
    pub(crate) rows: Vec<Row>,
    pub(crate) offsets: Vec<usize>,
    pub(crate) arcs: Vec<Arc>,
    ghost sound: { Kept places rows.items },
    ghost both: { arcs.items ≡ arcs_from 0 rows.items },
    ghost count: { vec_len offsets ≡ 4097 },
    ghost limits: { (room ≤ 16384) × (vec_len rows ≤ room) },
    ghost memory: { (room ≤ vec_capacity rows) × (2 * room ≤ vec_capacity arcs) },
}

// One list of arcs, with the offset of each place: a list for each place would want memory on closing, which cannot fail.
#[derive(Drop)]
pub struct ClosedFrame {
    pub(crate) places: u32,
    pub(crate) rows: Vec<Row>,
    pub(crate) offsets: Vec<usize>,
    pub(crate) arcs: Vec<Arc>,
    ghost fan: { Sealed places rows.items offsets.items arcs.items },
}
