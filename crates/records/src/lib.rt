// Records in a lent pool: their kinds, ids and rows, and the leaves by which every reader makes a record and counts a comparison.
#![tactic(auto)]

pub mod book;
pub mod comparisons;
pub mod ids;
pub mod kind;
pub mod nodes;
pub mod pool;
pub mod row;
pub mod words;
