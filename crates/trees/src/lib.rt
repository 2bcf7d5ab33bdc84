// Connected sets of places and ducts, trees, their growth by walks, and what the least sum of distances to groups is bounded by: each function's contract is a theorem.
#![tactic(auto)]

ghost use Rattle.trees.specs.Laws.{WayInWeight, DistanceInWeight, TreeFew, TreeLight, TreeStarts, TreeGrows, NearestGap, CostBounded, LeastCostBounded};

// A way that comes to no place twice is no longer than all the ducts together.
pub fn way_in_weight()
    ensures { WayInWeight }
{}

// Two places of a connected set are no further apart than its weight.
pub fn distance_in_weight()
    ensures { DistanceInWeight }
{}

// A tree has fewer ducts than there are places.
pub fn tree_few()
    ensures { TreeFew }
{}

// A tree weighs at most a million for each of its ducts.
pub fn tree_light()
    ensures { TreeLight }
{}

// One place alone is a tree.
pub fn tree_starts()
    ensures { TreeStarts }
{}

// A tree grown by a walk is a tree, and heavier by the walk's length.
pub fn tree_grows()
    ensures { TreeGrows }
{}

// What is nearest of a group's places is at the group's distance.
pub fn nearest_gap()
    ensures { NearestGap }
{}

// From a place of a connected set, the groups that it touches are together no further than that many times its weight.
pub fn cost_bounded()
    ensures { CostBounded }
{}

// The least sum of distances from a place of the first of g groups is at most g − 1 times the weight of any connected set that touches all groups.
pub fn least_cost_bounded()
    ensures { LeastCostBounded }
{}
