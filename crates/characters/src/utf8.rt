// UTF-8 by RFC 3629: the well-formed prefix of a text, and the character at an offset.
ghost use Rattle.std.specs.Prelude.{◌≡◌, ◌+◌, ◌-◌, ◌*◌, ◌<◌, ◌≤◌, ◌^◌, length, get_or, drop};
ghost use Rattle.characters.specs.Utf8.{◌to◌, char_of, inside, mark, prefix_of, prefix_place, sequence_of, table, well_formed};
ghost use Rattle.characters.specs.Utf8Laws.{opened_in};
ghost use Rattle.characters.specs.Utf8Lead.{followed_by, lead_of};

use crate::eights::ascii_end;
use crate::place::Place;

// What a lead byte asks for: the bytes of its character, and the range of the second. No bytes: no character has this lead.
#[derive(Clone, Copy)]
pub struct Lead(pub usize, pub u8, pub u8);

// The RFC's table, row by row, by the lead byte.
fn opened(b: u8) -> Lead
    ensures { result ≡ lead_of (opened_in table b) }
{
    match b {
        0x00..=0x7F => Lead(1, 0, 0),
        0xC2..=0xDF => Lead(2, 0x80, 0xBF),
        0xE0 => Lead(3, 0xA0, 0xBF),
        0xE1..=0xEC => Lead(3, 0x80, 0xBF),
        0xED => Lead(3, 0x80, 0x9F),
        0xEE..=0xEF => Lead(3, 0x80, 0xBF),
        0xF0 => Lead(4, 0x90, 0xBF),
        0xF1..=0xF3 => Lead(4, 0x80, 0xBF),
        0xF4 => Lead(4, 0x80, 0x8F),
        _ => Lead(0, 0, 0),
    }
}

// Whether a byte lies in a range, its ends included.
fn in_range(b: u8, low: u8, high: u8) -> bool
    ensures { result ≡ inside (low to high) b }
{
    (low..=high).contains(&b)
}

// The width that a lead at `at` announces, or 0 where the bytes after it are not what it asks for.
fn follow(text: &[u8], at: usize, lead: Lead) -> usize
    requires { (at < length text.now) × (lead.0 ≤ 4) }
    ensures { result ≡ followed_by lead (drop (at + 1) text.now) }
{
    let width = lead.0;
    if width < 2 {
        return width;
    }
    if text.len() - at < width {
        return 0;
    }
    if !in_range(text[at + 1], lead.1, lead.2) {
        return 0;
    }
    if width == 2 {
        return 2;
    }
    if !in_range(text[at + 2], 0x80, 0xBF) {
        return 0;
    }
    if width == 3 {
        return 3;
    }
    if !in_range(text[at + 3], 0x80, 0xBF) {
        return 0;
    }
    4
}

// How many bytes the character at `at` has, or 0 where no character is.
pub fn sequence(text: &[u8], at: usize) -> usize
    ensures { result ≡ sequence_of (drop at text.now) }
{
    if text.len() <= at {
        return 0;
    }
    let b = text[at];
    if b < 0x80 {
        return 1;
    }
    follow(text, at, opened(b))
}

// The length of the well-formed prefix. One pass, eight bytes a look where all are ASCII.
pub fn prefix(text: &[u8]) -> usize
    ensures { result ≡ prefix_of text.now }
{
    let mut at: usize = 0;
    loop {
        at = ascii_end(text, at);
        let width = sequence(text, at);
        if width == 0 {
            return at;
        }
        at += width;
    }
}

// Whether the whole text is well-formed.
pub fn well_formed(text: &[u8]) -> bool
    ensures { result ≡ well_formed text.now }
{
    prefix(text) == text.len()
}

// The place after the well-formed prefix. A place counts in u32, hence the bound, which is that of `Stands`.
pub fn prefix_place(text: &[u8]) -> Place
    requires { length text.now < 2 ^ 31 }
    ensures { result ≡ prefix_place text.now }
{
    let end = prefix(text);
    let mut p = Place::start();
    for at in 0..end {
        p = p.past(text[at] as u32);
    }
    p
}

// What stands before the bits of a lead, by the number of bytes after it.
fn mark_of(after: usize) -> u32
    ensures { result ≡ mark after }
{
    match after {
        0 => 0x00,
        1 => 0xC0,
        2 => 0xE0,
        _ => 0xF0,
    }
}

// The bits so far, and the six of the byte at `at`.
fn six_more(text: &[u8], v: u32, at: usize) -> u32
    requires { (v < 2 ^ 21) × (at < length text.now) × (0x80 ≤ get_or text.now at 0) }
    ensures { result ≡ v * 64 + (get_or text.now at 0 - 0x80) }
{
    let b = text[at] as u32;
    let six = b - 0x80;
    v * 64 + six
}

// The character at `at`: NUL at the end of the text, U+FFFD where no character is.
pub fn char_at(text: &[u8], at: usize) -> u32
    ensures { result ≡ char_of (drop at text.now) }
{
    if text.len() <= at {
        return 0;
    }
    let b = text[at] as u32;
    if b < 0x80 {
        return b;
    }
    let width = sequence(text, at);
    if width == 0 {
        return 0xFFFD;
    }
    let after = width - 1;
    let one = b - mark_of(after);
    let second = at + 1;
    let two = six_more(text, one, second);
    if after == 1 {
        return two;
    }
    let third = at + 2;
    let three = six_more(text, two, third);
    if after == 2 {
        return three;
    }
    let fourth = at + 3;
    six_more(text, three, fourth)
}
