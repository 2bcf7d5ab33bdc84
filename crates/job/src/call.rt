// What a day is made of.
#[derive(Clone, Copy)]
pub enum Call<'a> {
    // The fitting is to stand with these places.
    Add { fitting: u32, places: &'a [u32] },
    // The fitting is to stand no more.
    Drop { fitting: u32 },
    // A trunk is to be planned for the standing fittings.
    Plan,
    // The place comes into the oracle's focus.
    Focus { place: u32 },
    // The oracle's focus is emptied.
    Clear,
}
