// Literals: numbers, strings, bytearrays. Each reader answers where a literal ends, or the refusal; values are worked out from the span.
#![tactic(auto)]

pub mod bytearrays;
pub mod numbers;
pub mod plain;
pub mod strings;
