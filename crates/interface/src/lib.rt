// The calls as C sees them: what each leaves, what is lent on, and that what is posted comes back. The functions are in `tollmeander`.
#![tactic(auto)]
