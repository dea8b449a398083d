// Strings: where a literal ends, and the characters that it spells.
ghost use Rattle.std.specs.Prelude.{◌≡◌, ◌+◌, ◌-◌, ◌<◌, ◌≤◌, ◌^◌, length};
ghost use Rattle.characters.specs.Text.{Stands, next};
ghost use Rattle.characters.specs.Names.{part, same};
ghost use Rattle.literals.specs.Numbers.{digit_of};
ghost use Rattle.literals.specs.Strings.{closing, decoded, escape, hex_by, key_of, letter_of, piece, reach, same_key, spelled_by, strayed, string, unicode};

use characters::place::{Place, Span, Token, byte};
use characters::refusal::{Refusal, Refused};
use characters::utf8::{char_at, sequence};

// What an escape means: a character, and how many bytes behind the `\` spell it.
#[derive(Clone, Copy, Debug, PartialEq, Eq)]
pub struct Escaped {
    pub value: u32,
    pub width: u32,
}

// How far what is no escape is read before it is refused.
#[derive(Clone, Copy, Debug, PartialEq, Eq)]
pub enum BadEscape {
    // So many bytes.
    Short { width: u32 },
    // The `x` and two characters more.
    NotHex,
    // The character.
    Unknown,
}

// The value of a hex digit, or 16.
#[tactic(auto, unfolding(crate::specs::Numbers::digit_of))]
pub fn hex(b: u32) -> u32
    ensures { result ≡ digit_of b }
{
    match b {
        48..=57 => b - 48,
        65..=70 => b - 55,
        97..=102 => b - 87,
        _ => 16,
    }
}

// The escape `\x` with the digits h and l.
#[tactic(auto, unfolding(crate::specs::Strings::hex_by))]
fn hex_pair(h: u32, l: u32) -> Result<Escaped, BadEscape>
    ensures { result ≡ hex_by h l }
{
    if 8 <= h {
        return Err(BadEscape::NotHex);
    }
    if 16 <= l {
        return Err(BadEscape::NotHex);
    }
    let value = h * 16 + l;
    Ok(Escaped { value, width: 3 })
}

// What stands after n digits that spell v.
#[tactic(auto, unfolding(crate::specs::Strings::closing))]
fn close(b: u32, n: u32, v: u32) -> Result<Escaped, BadEscape>
    requires { n < 16 }
    ensures { result ≡ closing b n v }
{
    if b != 125 {
        return Err(BadEscape::Short { width: n + 2 });
    }
    if n == 0 {
        return Err(BadEscape::Short { width: 2 });
    }
    let width = n + 3;
    match v {
        0..=55295 | 57344..=1114111 => Ok(Escaped { value: v, width }),
        _ => Err(BadEscape::Short { width }),
    }
}

// What follows `\u`, from `at` on.
fn braced(text: &[u8], at: u32) -> Result<Escaped, BadEscape>
    requires { (length text.now < 2 ^ 31) × (at ≤ length text.now) }
    ensures { result ≡ unicode text.now at }
{
    let open = byte(text, at);
    if open != 123 {
        return Err(BadEscape::Short { width: 1 });
    }
    let mut o = at + 1;
    let mut n: u32 = 0;
    let mut v: u32 = 0;
    loop {
        let b = byte(text, o);
        let d = hex(b);
        if 16 <= d {
            return close(b, n, v);
        }
        if n == 6 {
            return Err(BadEscape::Short { width: 8 });
        }
        v = v * 16 + d;
        n += 1;
        o += 1;
    }
}

// The character of an escape of one letter, or 256.
#[tactic(auto, unfolding(crate::specs::Strings::letter_of, crate::specs::Strings::among))]
pub fn letter(b: u32) -> u32
    ensures { result ≡ letter_of b }
{
    match b {
        92 => 92,
        39 => 39,
        34 => 34,
        116 => 9,
        114 => 13,
        110 => 10,
        48 => 0,
        _ => 256,
    }
}

// What follows the `\` before `at`.
#[tactic(auto, unfolding(crate::specs::Strings::escape))]
pub fn escape(text: &[u8], at: u32) -> Result<Escaped, BadEscape>
    requires { (length text.now < 2 ^ 31) × (at ≤ length text.now) }
    ensures { result ≡ escape text.now at }
{
    let b = byte(text, at);
    let value = letter(b);
    if value < 256 {
        return Ok(Escaped { value, width: 1 });
    }
    match b {
        120 => {
            let h = hex(byte(text, at + 1));
            let l = hex(byte(text, at + 2));
            hex_pair(h, l)
        }
        117 => braced(text, at + 1),
        _ => Err(BadEscape::Unknown),
    }
}

// Two characters on, whatever they are; past the end only the column moves.
pub fn two_on(text: &[u8], at: Place) -> Place
    requires { Stands text.now at }
    ensures { result ≡ next text.now (next text.now at) }
{
    let b = byte(text, at.offset);
    if b == 256 {
        let once = at.column + 1;
        let column = once + 1;
        return Place {
            offset: at.offset,
            line: at.line,
            column,
        };
    }
    let p = at.next(text);
    p.next(text)
}

// Where a wrong escape is refused, whose `\` ends at `at`.
fn stray(text: &[u8], at: Place, e: BadEscape) -> Place
    requires { (Stands text.now at) × (at.offset + reach (Err e) ≤ length text.now) }
    ensures { result ≡ strayed text.now at e }
{
    match e {
        BadEscape::Short { width } => at.on(width),
        BadEscape::NotHex => two_on(text, at.on(1)),
        BadEscape::Unknown => at.next(text),
    }
}

// The string whose opening quote stands at `at`, up to past its closing quote.
pub fn string(text: &[u8], at: Place) -> Result<Token, Refused>
    requires { Stands text.now at }
    ensures { result ≡ string text.now at }
{
    let quote = byte(text, at.offset);
    if quote == 256 {
        return Err(Refused {
            refusal: Refusal::EndOfInput,
            at,
        });
    }
    let mut p = at.past(quote);
    loop {
        let b = byte(text, p.offset);
        if b == 256 {
            return Err(Refused {
                refusal: Refusal::EndOfInput,
                at: p,
            });
        }
        if b == quote {
            return Ok(Token {
                here: at,
                next: p.past(b),
            });
        }
        if b == 92 {
            match escape(text, p.offset + 1) {
                Ok(escaped) => {
                    p = p.on(1 + escaped.width);
                }
                Err(e) => {
                    return Err(Refused {
                        refusal: Refusal::BadStringEscape,
                        at: stray(text, p.on(1), e),
                    });
                }
            }
        } else {
            p = p.past(b);
        }
    }
}

// A character that a string spells, and the offset after it.
#[derive(Clone, Copy, Debug, PartialEq, Eq)]
pub struct Spelled {
    pub value: u32,
    pub next: u32,
}

// The character of an escape whose `\` ends at `at`; where it is none, the `\` itself.
fn after_escape(e: Result<Escaped, BadEscape>, at: u32) -> Spelled
    requires { at + reach e < 2 ^ 31 }
    ensures { result ≡ spelled_by e at }
{
    match e {
        Ok(escaped) => Spelled {
            value: escaped.value,
            next: at + escaped.width,
        },
        Err(_) => Spelled {
            value: 92,
            next: at,
        },
    }
}

// The character at `at`, in the bytes between the quotes; none at their end.
pub fn piece(text: &[u8], at: u32) -> Option<Spelled>
    requires { (length text.now < 2 ^ 31) × (at ≤ length text.now) }
    ensures { result ≡ piece text.now at }
{
    let b = byte(text, at);
    if b == 256 {
        return None;
    }
    let next = at + 1;
    if b == 92 {
        return Some(after_escape(escape(text, next), next));
    }
    if b < 128 {
        return Some(Spelled { value: b, next });
    }
    let i = at as usize;
    let value = char_at(text, i);
    let width = sequence(text, i) as u32;
    if width == 0 {
        return Some(Spelled { value, next });
    }
    let next = at + width;
    Some(Spelled { value, next })
}

// Whether what stands between two pairs of quotes spells the same characters.
pub fn same(a: &[u8], b: &[u8]) -> bool
    requires { (length a.now < 2 ^ 31) × (length b.now < 2 ^ 31) }
    ensures { result ≡ same (decoded a.now) (decoded b.now) }
{
    let mut i: u32 = 0;
    let mut j: u32 = 0;
    loop {
        match (piece(a, i), piece(b, j)) {
            (None, None) => {
                return true;
            }
            (Some(x), Some(y)) => {
                if x.value != y.value {
                    return false;
                }
                i = x.next;
                j = y.next;
            }
            _ => {
                return false;
            }
        }
    }
}

// The bytes from one offset to another, as far as they stand in the text.
pub fn part(text: &[u8], from: u32, to: u32) -> &[u8]
    ensures { result.now ≡ part text.now from to }
{
    let n = text.len();
    let x = from as usize;
    let y = to as usize;
    if n <= x {
        return &text[n..n];
    }
    if y <= x {
        return &text[x..x];
    }
    if n <= y {
        return &text[x..n];
    }
    &text[x..y]
}

// What stands between two quotes, the first of them at `from`.
fn unquoted(text: &[u8], from: u32, to: u32) -> &[u8]
    requires { from + 1 < 2 ^ 32 }
    ensures { result.now ≡ part text.now (from + 1) (to - 1) }
{
    let inner = from + 1;
    if to == 0 {
        return part(text, inner, 0);
    }
    let end = to - 1;
    part(text, inner, end)
}

// What a key spells: a string without its quotes, or a name.
#[tactic(auto, unfolding(crate::specs::Strings::key_of))]
pub fn key(text: &[u8], span: Span) -> &[u8]
    requires { length text.now < 2 ^ 31 }
    ensures { result.now ≡ key_of text.now span.from span.to }
{
    match byte(text, span.from) {
        34 | 39 => unquoted(text, span.from, span.to),
        _ => part(text, span.from, span.to),
    }
}

// Whether two keys are the same: "values compare by decoded characters".
#[tactic(auto, unfolding(crate::specs::Strings::same_key))]
pub fn same_key(text: &[u8], a: Span, b: Span) -> bool
    requires { length text.now < 2 ^ 31 }
    ensures { result ≡ same_key text.now a b }
{
    let x = key(text, a);
    let y = key(text, b);
    same(x, y)
}
