// What holds of hubs and labels: each function's contract is a theorem.
ghost use Rattle.hubs.specs.Theorems.{Cover, Closed, ExactRight, ExactExists, ExactOnce, MergeFinds, RightAnswers, RightNearest, RightRule, SearchFinds};

// The shortest ways from one place to another have a hub that both ends share.
pub fn cover()
    ensures { Cover }
{}

// A hub of a place is a hub of every place on a shortest way to it.
pub fn closed()
    ensures { Closed }
{}

// Rows that hold exactly the hubs make a right table.
pub fn exact_right()
    ensures { ExactRight }
{}

// For each order there are such rows.
pub fn exact_exists()
    ensures { ExactExists }
{}

// For each order there are no two.
pub fn exact_once()
    ensures { ExactOnce }
{}

// The merge of two rows finds the least sum that they share, at the lowest hub that gives it.
pub fn merge_finds()
    ensures { MergeFinds }
{}

// A right table tells distances.
pub fn right_answers()
    ensures { RightAnswers }
{}

// A right table tells the nearest place in focus, by one record for each hub.
pub fn right_nearest()
    ensures { RightNearest }
{}

// The way rule of a right table goes on by a shortest way.
pub fn right_rule()
    ensures { RightRule }
{}

// A pruned search comes to the places that have its hub, at their distances, and to no other.
pub fn search_finds()
    ensures { SearchFinds }
{}
