// The solver's answer file, as definitions: this crate has no code. What it says is in specs/ and proofs/.
#![tactic(auto)]
