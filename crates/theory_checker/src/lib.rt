// No code: the theory of the checker's definitions is in specs/.
#![tactic(auto)]
