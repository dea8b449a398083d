// The readers of expressions, statements, functions and lambdas: one cycle, proved as one.
#![tactic(auto)]

pub mod cycle;
