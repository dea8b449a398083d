// The grammar of Plush: what stands at a place, and the rows that its rules make.
#![tactic(auto)]

pub mod assignments;
pub mod atoms;
pub mod blanks;
pub mod declarations;
pub mod heads;
pub mod leaves;
pub mod operators;
pub mod rows;
