// What classes cost, and the two totals of a table: definitions and laws, no code.
#![tactic(auto)]
