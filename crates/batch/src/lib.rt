// Many packets a call: definitions and laws. The functions are in `listing` and `batching`.
#![tactic(auto)]
