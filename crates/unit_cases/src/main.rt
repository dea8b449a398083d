// Replays cases of whole units. Standard input is a list of cases (crate `cases`), each the text of a unit; each one's listing is written
// as `plushlist` writes it. A case's letter says which call is made. oracle/units.py makes the list and, from the engine's reader and the
// second reading, what must be written.
#![tactic(auto)]

use reading::answer::Answer;
use unit::entries::{read, read_short};

fn main() {
    let mut space = [0u8; 262144];
    cases::replay_input(&mut space, answer);
}

// A pool of 1,024 records.
fn answer(kind: u8, text: &[u8]) {
    let mut pool = [0u32; 8192];
    let answer = call(kind, text, &mut pool);
    lister::list(text, &pool, answer);
}

// `f` is the file form, `n` has two levels, `s` is the short entry; `u` is the call that `plushlist` makes.
fn call(kind: u8, text: &[u8], pool: &mut [u32]) -> Answer {
    match kind {
        b'f' => read(text, pool, 256, 4294967295, true),
        b'n' => read(text, pool, 2, 4294967295, false),
        b's' => read_short(text, pool),
        _ => read(text, pool, 256, 4294967295, false),
    }
}
