// What is read and made without calling back: plain operands, pending operators, prefix signs, names that are compared, parameters, and the
// records that end a rule. The cycle of readers stands on these.
#![tactic(auto)]

pub mod answers;
pub mod chains;
pub mod endings;
pub mod names;
pub mod plain;
pub mod signs;
