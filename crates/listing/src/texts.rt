// What parts of the text print as: strings by their characters, bytearrays by their bytes.
ghost use Rattle.std.specs.Prelude.{◌≡◌, [], ◌∷◌, ◌<◌, ◌^◌, length};
ghost use Rattle.literals.specs.Strings.{decoded};
ghost use Rattle.listing.specs.Sheets.{Writes, sheet};
ghost use Rattle.listing.specs.Listing.{bytes, character, characters, hex, pair, quoted};
ghost use Rattle.listing.specs.Laws.Texts.{Shuts, pairs_from};

use crate::sheet::{copy, put};
use characters::place::{Place, Span};
use literals::bytearrays::{Mode, Seen, bytearray, step};
use literals::strings::{key, piece};

// One decoded character of a string, in UTF-8.
pub fn character(out: &mut [u8], at: usize, v: u32) -> usize
    ensures { Writes (character v) (sheet out.old at) (sheet out.new result) }
{
    if v < 128 {
        return put(out, at, v as u8);
    }
    let d = (128 + v % 64) as u8;
    if v < 2048 {
        let c = (192 + v / 64) as u8;
        return copy(out, at, &[c, d]);
    }
    let c = (128 + v / 64 % 64) as u8;
    if v < 65536 {
        let b = (224 + v / 4096) as u8;
        return copy(out, at, &[b, c, d]);
    }
    let b = (128 + v / 4096 % 64) as u8;
    let a = (240 + v / 262144 % 8) as u8;
    copy(out, at, &[a, b, c, d])
}

// The characters that a text spells, as it stands between quotes.
fn spelled(out: &mut [u8], at: usize, inner: &[u8]) -> usize
    requires { length inner.now < 2 ^ 31 }
    ensures { Writes (characters (decoded inner.now)) (sheet out.old at) (sheet out.new result) }
{
    let mut next = at;
    let mut i: u32 = 0;
    while let Some(found) = piece(inner, i) {
        next = character(out, next, found.value);
        i = found.next;
    }
    next
}

// What a string with its quotes, or a key, spells, between double quotes.
pub fn quoted(out: &mut [u8], at: usize, text: &[u8]) -> usize
    requires { length text.now < 2 ^ 31 }
    ensures { Writes (quoted text.now) (sheet out.old at) (sheet out.new result) }
{
    let n = text.len() as u32;
    let inner = key(text, Span { from: 0, to: n });
    let first = put(out, at, 34);
    let next = spelled(out, first, inner);
    put(out, next, 34)
}

// A hex digit, in capitals.
fn hex(d: u32) -> u8
    requires { d < 16 }
    ensures { result ≡ hex d }
{
    if d < 10 {
        return (48 + d) as u8;
    }
    (55 + d) as u8
}

// A byte of a bytearray in hex, with the space before it.
fn pair(out: &mut [u8], at: usize, v: u32) -> usize
    ensures { Writes (pair v) (sheet out.old at) (sheet out.new result) }
{
    let h = hex(v / 16 % 16);
    let l = hex(v % 16);
    copy(out, at, &[32, h, l])
}

// The bytes of a bytearray that is shut, from past its `#[` on.
fn pairs(out: &mut [u8], at: usize, text: &[u8], from: Place) -> usize
    requires { Shuts text.now from }
    ensures { Writes (pairs_from text.now from) (sheet out.old at) (sheet out.new result) }
{
    let mut next = at;
    let mut p = from;
    let mut mode = Mode::Between;
    let mut last: u32 = 256;
    while let Ok(seen) = step(text, mode, last, p) {
        match seen {
            Seen::Byte {
                value,
                mode: run,
                next: q,
            } => {
                next = pair(out, next, value);
                last = value;
                mode = run;
                p = q;
            }
            Seen::Opened { mode: run, next: q } => {
                mode = run;
                p = q;
            }
            Seen::Shut { next: _ } => {
                return next;
            }
        }
    }
    next
}

// The bytes of a bytearray with its `#[`; none where it is refused.
pub fn bytes(out: &mut [u8], at: usize, text: &[u8]) -> usize
    requires { length text.now < 2 ^ 31 }
    ensures { Writes (bytes text.now) (sheet out.old at) (sheet out.new result) }
{
    if text.len() < 2 {
        return at;
    }
    let from = Place {
        offset: 2,
        line: 1,
        column: 3,
    };
    match bytearray(text, from) {
        Ok(_) => pairs(out, at, text, from),
        Err(_) => at,
    }
}
