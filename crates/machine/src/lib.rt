// The plain machine of a chart, and that ages bound what it holds: definitions and laws, no code.
#![tactic(auto)]
