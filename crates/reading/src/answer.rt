// Answers: what the caller of an entry is told.

// The number (0: accepted, else the refusal's), the place, and both counts.
#[derive(Clone, Copy, Debug, PartialEq, Eq)]
pub struct Answer {
    pub number: u32,
    pub line: u32,
    pub column: u32,
    pub records: u32,
    pub comparisons: u32,
}
