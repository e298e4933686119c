// Lists as the other crates' definitions use them: this crate has no code. Functions in specs/, their laws in proofs/.
#![tactic(auto)]
