// No code: the theory of sound states stands in specs/.
#![tactic(auto)]
