// How rows of a table of any state lie in lent lists, and what meeting one row does there. Definitions and laws, no code.
#![tactic(auto)]
