// Which blocks stay once they are loaded: the flow of one block's touches and set since. Definitions and their laws, no code.
#![tactic(auto)]
