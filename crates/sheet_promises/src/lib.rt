// The statements of module sheets: definitions and proofs, no function.
#![tactic(auto)]
