// Batches in sequences of takes and finishes: definitions and laws.
#![tactic(auto)]
