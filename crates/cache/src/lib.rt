// The plain cache, and the must and may ages that bound it: definitions and their laws, no code.
#![tactic(auto)]
