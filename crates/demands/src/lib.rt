// The three demands, stated whole, and the soundings. Definitions and proofs: there is no function here, and nothing to call.
#![tactic(auto)]
