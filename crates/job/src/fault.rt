// Why a job or its plan refuses.
#[derive(Clone, Copy, PartialEq, Eq, Debug)]
pub enum JobFault {
    // 13: the fitting's number, the first of the call, is above 63.
    Number,
    // 16: no place, more than 16, or not strictly rising.
    Places { fitting: u32 },
    // 15: the first place that is not below the job's number of places.
    NoPlace { place: u32 },
    // 32: the fitting stands already.
    Stands { fitting: u32 },
    // 33: the fitting does not stand.
    Absent { fitting: u32 },
    // 34: no fitting stands.
    NoneStanding,
    // 35: the oracle has another number of places, this one.
    OtherPlaces { places: u32 },
    // 31: the trunk memory is shorter than the entries needed.
    Trunk { needed: u32 },
    // 38: no connected set touches each of so many standing fittings.
    NoSet { fittings: u32 },
}
