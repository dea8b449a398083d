// The characters of a text: places, UTF-8, blanks, names, tokens. Nothing here knows the grammar.
#![tactic(auto)]

pub mod blanks;
pub mod eights;
pub mod names;
pub mod place;
pub mod refusal;
pub mod reserved;
pub mod tokens;
pub mod utf8;
