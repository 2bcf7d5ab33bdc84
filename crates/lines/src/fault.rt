// What reading and writing a ticket refuse with, apart from what frame and job refuse.
#[derive(Clone, Copy, PartialEq, Eq, Debug)]
pub enum ReaderFault {
    // 11: the line breaks the form.
    Form { line: u64 },
    // 12: a line is missing, surplus or in the wrong section, or a fitting's count or number is wrong.
    Section { line: u64 },
    // 13: a number of the line, counted from 1, is outside its limit.
    Limit { which: u64 },
    // 31: room for so many bytes is needed.
    Memory { needed: u64 },
    // 35: the frame has no places, or another number of them than the job.
    OtherPlaces { places: u32 },
}
