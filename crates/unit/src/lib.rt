// The unit as a whole. Its promises stand in specs/Promises.antt, the contract of its entries in specs/Entries.antt.
#![tactic(auto)]

pub mod classes;
pub mod entries;
pub mod items;
