// A list of cases held in one slice. Each case is a line `KIND LENGTH`, then as many bytes of text, then an LF. KIND is a
// small letter, LENGTH a decimal number. The texts may hold any bytes.
#![tactic(auto)]

use characters::names::is_small;
use characters::place::Place;

pub mod say;

ghost use Rattle.std.specs.Prelude.{◌≡◌, ◌<◌, ◌^◌, eqb, length};
ghost use Rattle.characters.specs.Text.{Stands, byte_at};
ghost use Rattle.cases.specs.Cases.{SizeOf, case_at, is_digit};
ghost use Rattle.cases.specs.Walks.{Walked};

// A case: its text goes from `from` up to `to`, and `next` is past it.
#[derive(Clone, Copy, Debug, PartialEq, Eq)]
pub struct Case {
    pub kind: u8,
    pub from: usize,
    pub to: usize,
    pub next: usize,
}

// No case begins at this offset.
#[derive(Clone, Copy, Debug, PartialEq, Eq)]
pub struct BadCase {
    pub at: usize,
}

// The length that a case states, and the offset after its digits.
#[derive(Clone, Copy, Debug, PartialEq, Eq)]
pub struct Size {
    pub value: usize,
    pub after: usize,
}

// Does this byte stand at an offset?
fn has(list: &[u8], at: usize, byte: u8) -> bool
    ensures { result ≡ eqb (byte_at list.now at) byte }
{
    at < list.len() && list[at] == byte
}

// Does a digit stand at an offset?
fn has_digit(list: &[u8], at: usize) -> bool
    ensures { result ≡ is_digit (byte_at list.now at) }
{
    at < list.len() && list[at].is_ascii_digit()
}

// The number at an offset. Its value stays below a thousand millions, so that no sum wraps.
fn size_at(list: &[u8], at: usize) -> Size
    ensures { SizeOf list.now at result }
{
    let mut value: usize = 0;
    let mut after = at;
    while value < 100000000 && has_digit(list, after) {
        value = value * 10 + (list[after] - b'0') as usize;
        after += 1;
    }
    Size { value, after }
}

// The case at an offset, or `None` past the end.
#[tactic(auto, unfolding(crate::specs::Cases::case_at))]
pub fn next(list: &[u8], at: usize) -> Result<Option<Case>, BadCase>
    ensures { result ≡ case_at list.now at }
{
    let Some(&kind) = list.get(at) else {
        return Ok(None);
    };
    if !is_small(kind) || !has(list, at + 1, b' ') {
        return Err(BadCase { at });
    }
    let size = size_at(list, at + 2);
    if size.after <= at + 2 || !has(list, size.after, b'\n') {
        return Err(BadCase { at });
    }
    let from = size.after + 1;
    let to = from + size.value;
    if !has(list, to, b'\n') {
        return Err(BadCase { at });
    }
    let past = to + 1;
    Ok(Some(Case {
        kind,
        from,
        to,
        next: past,
    }))
}

// Hands on the kind and the text of one case after the other, up to the end of the list or to where no case begins.
pub fn replay<F: Fn(u8, &[u8])>(list: &[u8], answer: F) -> Result<(), BadCase>
    requires short { length list.now < 2 ^ 31 }
    requires answers { (kind : _) (text : _) → length text.now < 2 ^ 31 → F.pre answer kind text }
    ensures { Walked list.now 0 result }
{
    let mut at = 0;
    while let Some(case) = next(list, at)? {
        answer(case.kind, &list[case.from..case.to]);
        at = case.next;
    }
    Ok(())
}

// Replays the list on standard input, for which it is lent space. A list that fills the space may have been cut, so it is not replayed.
pub fn replay_input<F: Fn(u8, &[u8])>(space: &mut [u8], answer: F)
    requires short { length space.old < 2 ^ 31 }
    requires answers { (kind : _) (text : _) → length text.now < 2 ^ 31 → F.pre answer kind text }
{
    let n = io::read_full(0, space);
    if n == space.len() {
        say::bytes(b"the list is too long\n");
        return;
    }
    if let Err(bad) = replay(&space[..n], answer) {
        say::bad(bad);
    }
}

// The place where the text of a case begins.
pub fn start_of(text: &[u8]) -> Place
    requires { length text.now < 2 ^ 31 }
    ensures { Stands text.now result }
{
    Place::start()
}
