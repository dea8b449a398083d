// Rows: a record as code holds it.
use crate::kind::Kind;
use characters::place::Place;

// Its kind, its position and its four fields. specs/Kinds.antt says what each field means; one that a kind doesn't use is 0.
#[derive(Clone, Copy, Debug, PartialEq, Eq)]
pub struct Row {
    pub kind: Kind,
    pub position: Place,
    pub a: u32,
    pub b: u32,
    pub c: u32,
    pub d: u32,
}
