// What the lent bytes hold after a call of the C interface is what the library's call leaves of what they held before. There is no code: the
// calls are those of `ritm`.

#![tactic(auto)]
