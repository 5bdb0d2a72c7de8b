// One receive call: definitions and laws. The functions are in `lengths`, `pieces`, `delivering`, `one_piece` and `putting`.
#![tactic(auto)]
