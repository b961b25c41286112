// No code: laws in specs/, of the records, heads, instructions and codes of any file.
#![tactic(auto)]
