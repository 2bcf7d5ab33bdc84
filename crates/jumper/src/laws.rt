// What holds of a jumper over any sound meaning: each function's contract is a theorem.
ghost use Rattle.jumper.specs.Laws.{AcceptedLawful, ThreeSums, JumpedSound};

// A jumper's duct is accepted exactly where it is lawful.
pub fn accepted_lawful()
    ensures { AcceptedLawful }
{}

// With one more duct, the distance is the least of three sums.
pub fn three_sums()
    ensures { ThreeSums }
{}

// A jumper over a sound meaning is sound.
pub fn jumped_sound()
    ensures { JumpedSound }
{}
