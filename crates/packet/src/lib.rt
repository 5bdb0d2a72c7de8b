// A whole packet of the transmit ring: definitions and laws. The functions are in `causes`, `planning`, `judging` and `gathering`.
#![tactic(auto)]
