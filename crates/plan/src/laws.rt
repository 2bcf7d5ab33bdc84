// What holds of every plan: each function's contract is a theorem.
ghost use Rattle.plan.specs.Laws.{WalkMeets, TrunkUnique, StepsUnique, LaidExactly};

// A walk to a trunk meets it at the nearest place, and is as long as the distance to it.
pub fn walk_meets()
    ensures { WalkMeets }
{}

// One trunk grows from a place.
pub fn trunk_unique()
    ensures { TrunkUnique }
{}

// The steps name one trunk.
pub fn steps_unique()
    ensures { StepsUnique }
{}

// Where a call can be planned, a trunk is laid exactly where some connected set touches every group.
pub fn laid_exactly()
    ensures { LaidExactly }
{}
