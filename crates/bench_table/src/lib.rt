// Document 01, "Bench table": its P rows, and the one fact that is proved of them. There is no code: the definitions are those of the crates
// below.

#![tactic(auto)]
