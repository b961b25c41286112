// No code: what is said in specs/ of a number that a function hands out.
#![tactic(auto)]
