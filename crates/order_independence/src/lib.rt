// Document 01, "Two runs side by side": definitions and theorems about lists of the host's calls. There is no code: the calls are those of
// the crates below.

#![tactic(auto)]
