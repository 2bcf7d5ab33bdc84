// The measured cases: each function's contract is a theorem of the definitions.
#![tactic(auto)]

ghost use Rattle.measured.specs.Table.{Far03, RankingOrder, JumperDistances};

// On the worked example 0 to 3 is 900, not 1,000.
pub fn frame_distance()
    ensures { Far03 }
{}

// The ranking order of the worked example is 3, 0, 1, 2, 4.
pub fn frame_ranking()
    ensures { RankingOrder }
{}

// With the jumper 0–4 of 50 on the worked example 0 to 3 is 200 and 1 to 4 is 350.
pub fn jumper_distances()
    ensures { JumperDistances }
{}
