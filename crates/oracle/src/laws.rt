// What holds of every oracle's meaning: each function's contract is a theorem.
ghost use Rattle.oracle.specs.Laws.{FarIs, RuleLeads};

// What an oracle tells is the distance over its ducts.
pub fn far_is()
    ensures { FarIs }
{}

// Where there is a way, the way rule walks one that is as long as the distance.
pub fn rule_leads()
    ensures { RuleLeads }
{}
