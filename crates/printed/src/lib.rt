// What a whole day prints, in theorems above the crates lines and demands: specs/ only, and nothing that runs.
#![tactic(auto)]
