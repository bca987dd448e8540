// The three demands as theorems about lists of calls, with the cases of document 01, in specs/; nothing that runs.
#![tactic(auto)]
