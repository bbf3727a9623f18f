// Lists, tests and choices that every floor above uses: definitions and their laws, no code.
#![tactic(auto)]
