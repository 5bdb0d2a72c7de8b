// A post is a publication of demand 3's sequences: definitions and laws.
#![tactic(auto)]
