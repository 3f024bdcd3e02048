// The calls that records name, on the policy, on the suspend map and without state. Each is made as the record says, and the words of its
// answer are compared with those recorded. The codes are those of the table of formats in crates/oracle_answers.

#![tactic(auto)]

pub mod map;
pub mod policy;
pub mod values;
