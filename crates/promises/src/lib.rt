// The three demands and the settlement desk's first question, in one place: `specs/Demands` states
// them, and `proofs/Demands` proves each by citing the crates below. There is no code here.
#![tactic(auto)]
