// No code: theorems in specs/. A sound state has what planning and settling a step ask for.
#![tactic(auto)]
