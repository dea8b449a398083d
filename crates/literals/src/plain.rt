// Plain literals: integers and fractions of decimal digits, strings without escapes. Where a leaf finds none, the readers of all literals decide.
ghost use Rattle.std.specs.Prelude.{◌≡◌, true, ◌≤◌, ◌<◌, ◌^◌, length};
ghost use Rattle.characters.specs.Text.{byte_at};
ghost use Rattle.characters.specs.Counts.{end_of};
ghost use Rattle.characters.specs.Names.{is_digit, is_small};
ghost use Rattle.literals.specs.Strings.{is_quote};
ghost use Rattle.literals.specs.Plain.{Few, IntOf, float_end, goes_on, int_end, is_itself, some_end, string_end};

use characters::names::{is_name_byte, is_small};
use characters::place::byte;

// A decimal digit.
fn is_digit(b: u8) -> bool
    ensures { result ≡ is_digit b }
{
    matches!(b, 48..=57)
}

// Where the decimal digits from `from` on end.
pub fn digits_end(text: &[u8], from: u32) -> u32
    requires { (from ≤ length text.now) × (length text.now < 2 ^ 31) }
    ensures { result ≡ end_of is_digit text.now from }
{
    let n = text.len();
    for i in from as usize..n {
        if !is_digit(text[i]) {
            return i as u32;
        }
    }
    n as u32
}

// May a number go on with this byte?
fn goes_on(b: u32) -> bool
    ensures { result ≡ goes_on b }
{
    is_name_byte(b) || b == 46
}

// Where the plain integer at `from` ends, if one stands there: at most eighteen digits, which no number goes on behind. Its digits end at `end`.
pub fn int_end(text: &[u8], from: u32, end: u32) -> Option<u32>
    requires { (from ≤ length text.now) × (length text.now < 2 ^ 31) × (end ≡ end_of is_digit text.now from) }
    ensures { result ≡ some_end (int_end text.now from) }
{
    if end <= from {
        return None;
    }
    if from + 18 < end {
        return None;
    }
    let b = byte(text, end);
    if goes_on(b) {
        return None;
    }
    Some(end)
}

// Where the plain fraction at `from` ends, if one stands there: digits, a dot and digits, which no number goes on behind. Its first digits end at `dot`.
pub fn float_end(text: &[u8], from: u32, dot: u32) -> Option<u32>
    requires { (from ≤ length text.now) × (length text.now < 2 ^ 31) × (dot ≡ end_of is_digit text.now from) }
    ensures { result ≡ some_end (float_end text.now from) }
{
    if dot <= from {
        return None;
    }
    let b = byte(text, dot);
    if b != 46 {
        return None;
    }
    let first = dot + 1;
    let end = digits_end(text, first);
    if end <= first {
        return None;
    }
    let c = byte(text, end);
    if goes_on(c) {
        return None;
    }
    Some(end)
}

// The value of the digits from `from` to `to`.
pub fn plain_int(text: &[u8], from: u32, to: u32) -> u64
    requires { Few text.now from to }
    ensures { IntOf text.now from to result }
{
    let mut value: u64 = 0;
    for i in from as usize..to as usize {
        let digit = text[i] - 48;
        value = value * 10 + digit as u64;
    }
    value
}

// Where the small letters from `from` on end: one test of a range for a byte, and four bytes a turn.
fn small_end(text: &[u8], from: usize) -> usize
    requires { (from ≤ length text.now) × (length text.now < 2 ^ 31) }
    ensures { result ≡ end_of is_small text.now from }
{
    let n = text.len();
    let mut i = from;
    while i + 4 <= n {
        if !is_small(text[i]) {
            return i;
        }
        if !is_small(text[i + 1]) {
            return i + 1;
        }
        if !is_small(text[i + 2]) {
            return i + 2;
        }
        if !is_small(text[i + 3]) {
            return i + 3;
        }
        i += 4;
    }
    while i < n {
        if !is_small(text[i]) {
            return i;
        }
        i += 1;
    }
    i
}

// A byte that means itself in a string, unless it is the quote.
fn is_itself(b: u8) -> bool
    ensures { result ≡ is_itself b }
{
    matches!(b, 32..=91 | 93..=126)
}

// Past the closing quote of the string that opens at `from`, if it is plain. Mostly small letters stand in it.
pub fn plain_string_end(text: &[u8], from: u32) -> Option<u32>
    requires { (is_quote (byte_at text.now from) ≡ true) × (length text.now < 2 ^ 31) }
    ensures { result ≡ some_end (string_end text.now from) }
{
    let n = text.len();
    let at = from as usize;
    let quote = text[at];
    let mut i = at + 1;
    loop {
        i = small_end(text, i);
        if n <= i {
            return None;
        }
        let b = text[i];
        if b == quote {
            let end = i as u32;
            return Some(end + 1);
        }
        if !is_itself(b) {
            return None;
        }
        i += 1;
    }
}
