// What holds of every sequence of takes and finishes on a transmit ring: definitions and laws.
#![tactic(auto)]
