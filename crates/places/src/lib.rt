// The places of the clauses in the formula, as definitions: this crate has no code. What it says is in specs/ and proofs/.
#![tactic(auto)]
