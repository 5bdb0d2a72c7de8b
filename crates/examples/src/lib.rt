// No code: a table of examples in specs/, and its claim in proofs/.
#![tactic(auto)]
