// The plan of a chart and the flow of its ages: definitions and laws, no code.
#![tactic(auto)]
