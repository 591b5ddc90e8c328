// What a list of calls and their answers owes, and what a controller promises of it.
#![tactic(auto)]
