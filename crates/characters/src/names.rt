// Names and reserved words.
ghost use Rattle.std.specs.Prelude.{◌≡◌, ◌+◌, ◌-◌, ◌≤◌, ◌<◌, ◌^◌, length};
ghost use Rattle.characters.specs.Text.{Stands};
ghost use Rattle.characters.specs.Counts.{end_of};
ghost use Rattle.characters.specs.Names.{fold_of, free_name, is_letter, is_name_byte, is_small, name, part, word_of};
ghost use Rattle.characters.specs.WordNumbers.{number_of_word, reserved_word};

use crate::place::{Place, Token, byte};
use crate::refusal::{Refusal, Refused};
use crate::reserved::Word;

// A letter or `_`. Small letters first, as most are.
pub fn is_letter(b: u32) -> bool
    ensures { result ≡ is_letter b }
{
    if 97 <= b {
        return b <= 122;
    }
    matches!(b, 65..=90) || b == 95
}

// A letter, digit or `_`. Small letters first, as most are.
pub fn is_name_byte(b: u32) -> bool
    ensures { result ≡ is_name_byte b }
{
    if 97 <= b {
        return b <= 122;
    }
    matches!(b, 48..=57 | 65..=90) || b == 95
}

// A small letter.
pub fn is_small(b: u8) -> bool
    ensures { result ≡ is_small b }
{
    b.is_ascii_lowercase()
}

// Where the bytes of a name from `from` on end. Small letters first, by one test of a range; and small enough to be put into `name`'s callers.
pub fn name_end(text: &[u8], from: u32) -> u32
    requires { (from ≤ length text.now) × (length text.now < 2 ^ 31) }
    ensures { result ≡ end_of is_name_byte text.now from }
{
    for i in from as usize..text.len() {
        let b = text[i];
        if !is_small(b) && !is_name_byte(b as u32) {
            return i as u32;
        }
    }
    text.len() as u32
}

// The name at `at`, with no blanks before it, or 11. Put into its callers, and places field by field, so that each stays in registers.
#[inline(always)]
pub fn name(text: &[u8], at: Place) -> Result<Token, Refused>
    requires { Stands text.now at }
    ensures { result ≡ name text.now at }
{
    let b = byte(text, at.offset);
    if !is_letter(b) {
        return Err(Refused {
            refusal: Refusal::ExpectedIdentifier,
            at: Place { ..at },
        });
    }
    let end = name_end(text, at.offset + 1);
    let next = at.on(end - at.offset);
    Ok(Token {
        here: Place { ..at },
        next: Place { ..next },
    })
}

// The name at `at`, or 11, or 12 where it is a reserved word. Put into its callers, which then copy no answer.
#[inline(always)]
#[tactic(auto, unfolding(crate::specs::Names::free_name))]
pub fn free_name(text: &[u8], at: Place) -> Result<Token, Refused>
    requires { Stands text.now at }
    ensures { result ≡ free_name text.now at }
{
    let read = name(text, at)?;
    match word(text, read.here.offset, read.next.offset) {
        Some(_) => Err(Refused {
            refusal: Refusal::ReservedWord,
            at: read.here,
        }),
        None => Ok(read),
    }
}

// The reserved word from `from` to `to`, if it is one. A name of one letter, or of more than ten, is told by its length.
pub fn word(text: &[u8], from: u32, to: u32) -> Option<Word>
    requires { (from ≤ to) × (to ≤ length text.now) }
    ensures { result ≡ reserved_word (part text.now from to) }
{
    let n = to - from;
    if n < 2 {
        return None;
    }
    if 10 < n {
        return None;
    }
    slotted(text, from, to)
}

// The reserved word of two to ten letters, if it is one: one look at the slot that it could be in. It stands apart, so that `word` needs no
// frame.
#[inline(never)]
fn slotted(text: &[u8], from: u32, to: u32) -> Option<Word>
    requires { (from ≤ to) × (to ≤ length text.now) × (2 ≤ to - from) × (to - from ≤ 10) }
    ensures { number_of_word result ≡ word_of (part text.now from to) }
{
    let n = to - from;
    let a = byte(text, from);
    let b = byte(text, from + 1);
    let slot = (21 * a + b + 14 * n) % 64;
    let head = 65536 * n + 256 * a + b;
    let held = Word::in_slot(slot)?;
    if held.head() != head {
        return None;
    }
    let rest = fold(text, from + 2, to);
    if held.rest() != rest {
        return None;
    }
    Some(held)
}

// At most eight bytes as one number, each a digit to the base 256.
fn fold(text: &[u8], from: u32, to: u32) -> u64
    requires { (from ≤ to) × (to ≤ length text.now) × (to ≤ from + 8) }
    ensures { result ≡ fold_of 0 (part text.now from to) }
{
    let mut v: u64 = 0;
    for i in from..to {
        v = v * 256 + byte(text, i) as u64;
    }
    v
}
