// What holds of files, calls and programs, as statements: this crate has no code. What it says is in specs/ and proofs/.
#![tactic(auto)]
