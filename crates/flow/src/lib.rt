// Tables over nodes and arrows: passing, tightest, passes and walks, for any kind of state. Definitions and their laws, no code.
#![tactic(auto)]
