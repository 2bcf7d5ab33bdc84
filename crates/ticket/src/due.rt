// Which line of a ticket is due.
#[derive(Clone, Copy)]
pub enum Due {
    // The P line.
    PlacesLine,
    // The D line.
    DuctsLine,
    // So many d lines, and then the F line.
    DuctLines { left: u32 },
    // So many f lines, of fittings no smaller than this number, and then no line.
    FittingLines { left: u32, least: u32 },
}
