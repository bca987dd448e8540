// What is said of lists in more than one crate: definitions and laws in specs/, and nothing that runs.
#![tactic(auto)]
