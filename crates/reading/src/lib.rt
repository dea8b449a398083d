// The values that the calculus of reading shares with the code. The calculus itself stands in specs/.
#![tactic(auto)]

pub mod answer;
pub mod node;
pub mod tally;
