// No code: laws in specs/, of choices, lists, stacks and control records. Nothing of the machine is stated here.
#![tactic(auto)]
