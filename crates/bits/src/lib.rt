// Bits of a number, by arithmetic, and what shifts and masks do to them. There is no code: every other crate can use the definitions.

#![tactic(auto)]
