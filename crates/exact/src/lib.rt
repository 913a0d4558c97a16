// What the two calls promise leaves nothing open, as the contract of a function: the code is nothing, the proof is all.
#![tactic(auto)]

ghost use Rattle.exact.specs.Exact.{OneJudgement, OneRun, OneNumberEach};

// No two answers are true of the same call, and `out` holds one thing after it.
pub fn exact_answers()
    ensures { OneJudgement × OneRun × OneNumberEach }
{}
