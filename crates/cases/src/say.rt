// What the programs over lists of cases write.
use crate::BadCase;
use characters::place::{Place, Token};
use characters::refusal::Refused;

pub fn bytes(w: &[u8]) {
    io::write_all(1, w);
}

// A place as `LINE:COLUMN`.
pub fn place(p: Place) {
    io::print_decimal(1, p.line as u64);
    bytes(b":");
    io::print_decimal(1, p.column as u64);
}

// A refusal as its number and its place.
pub fn refused(e: Refused) {
    io::print_decimal(1, e.refusal.number() as u64);
    bytes(b" ");
    place(e.at);
}

// The place after what was taken, or the refusal.
pub fn taken(answer: Result<Token, Refused>) {
    match answer {
        Ok(token) => place(token.next),
        Err(e) => refused(e),
    }
}

// Where no case begins.
pub fn bad(case: BadCase) {
    bytes(b"no case at ");
    io::print_decimal(1, case.at as u64);
    bytes(b"\n");
}
