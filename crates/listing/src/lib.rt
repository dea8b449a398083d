// The listing: prints records and answers, byte by byte, into a buffer that the caller lends. Each function takes the buffer and the
// place in it that is written next, and answers the place after what it wrote: one past the buffer's length where that did not fit.
#![tactic(auto)]

pub mod fields;
pub mod kinds;
pub mod lines;
pub mod numbers;
pub mod sheet;
pub mod texts;
