// What is true of every day: each function's contract is a theorem.
ghost use Rattle.job.specs.Laws.{StandingIs, NoneAbove, AllFitted, AcceptedAdd, AcceptedDrop};

// A fitting stands with the places of its accepted add, until an accepted drop of it.
pub fn standing_is()
    ensures { StandingIs }
{}

// No fitting above 63 ever stands.
pub fn none_above()
    ensures { NoneAbove }
{}

// Whatever stands has 1 to 16 places below n, strictly rising, and 64 fittings stand at most.
pub fn all_fitted()
    ensures { AllFitted }
{}

// When an add is accepted.
pub fn accepted_add()
    ensures { AcceptedAdd }
{}

// When a drop is accepted.
pub fn accepted_drop()
    ensures { AcceptedDrop }
{}
