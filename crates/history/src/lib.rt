// What is to be believed of the house, apart from its code: specs/ has the state, the calls, the histories and their laws.
#![tactic(auto)]

ghost use Rattle.history.specs.Laws.{EveryHistoryKeepsTheLaws};

// Carries the theorem: a check of this crate asks for its proof.
pub fn histories_keep_the_laws()
    ensures { EveryHistoryKeepsTheLaws }
{}
