// The classes of touches and nodes: definitions and laws, no code.
#![tactic(auto)]
