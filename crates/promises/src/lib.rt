// The demands of the order as statements, each with its proof. No function.
#![tactic(auto)]
