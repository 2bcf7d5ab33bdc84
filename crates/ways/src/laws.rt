// What holds of every distance: each function's contract is a theorem.
ghost use Rattle.ways.specs.Laws.{DistanceIs, DistanceUnique, DistanceSelf, DistanceSymmetric, DistanceTriangle, DistanceBounded, ShortestApart};

// The function that computes the distance from places and ducts alone tells it.
pub fn distance_is()
    ensures { DistanceIs }
{}

// Two places have one distance.
pub fn distance_unique()
    ensures { DistanceUnique }
{}

// A place is at the distance 0 from itself.
pub fn distance_self()
    ensures { DistanceSelf }
{}

// A distance is the same both ways.
pub fn distance_symmetric()
    ensures { DistanceSymmetric }
{}

// A detour is no shorter.
pub fn distance_triangle()
    ensures { DistanceTriangle }
{}

// A distance is at most that of n − 1 of the longest ducts, so it fits 32 bits.
pub fn distance_bounded()
    ensures { DistanceBounded }
{}

// A shortest way comes to no place twice.
pub fn shortest_apart()
    ensures { ShortestApart }
{}
