// Bytearrays: where a literal ends, and its bytes.
ghost use Rattle.std.specs.Prelude.{◌≡◌, ◌+◌, ◌<◌, ◌^◌, length};
ghost use Rattle.characters.specs.Text.{Stands, byte_at};
ghost use Rattle.literals.specs.ByteArrays.{ascii, between, binary, bit_of, bits, bytearray, coded, eight, hex, is_alphanumeric, line_end, mark, opening, outside, pair, plain, printed, slash, step, unknown};

use crate::strings::{hex as digit, letter};
use characters::blanks::skip;
use characters::place::{Place, Token, byte};
use characters::refusal::{Refusal, Refused};

// What is being read.
#[derive(Clone, Copy, Debug, PartialEq, Eq)]
pub enum Mode {
    // Between runs.
    Between,
    // The run of `\a`.
    Ascii,
    // The run of `\x`.
    Hex,
    // The run of `\b`.
    Binary,
}

// What the text at a place is: a byte, the opening of a run, or the closing `]`.
#[derive(Clone, Copy, Debug, PartialEq, Eq)]
pub enum Seen {
    Byte { value: u32, mode: Mode, next: Place },
    Opened { mode: Mode, next: Place },
    Shut { next: Place },
}

// 21 past the character behind the byte at `at`.
fn stray(text: &[u8], at: Place) -> Result<Seen, Refused>
    requires { (Stands text.now at) × (at.offset < length text.now) }
    ensures { result ≡ unknown text.now at }
{
    Err(Refused {
        refusal: Refusal::BadByteArray,
        at: at.on(1).next(text),
    })
}

// The run that the `\` at `at` opens.
#[tactic(auto, unfolding(crate::specs::ByteArrays::opening))]
fn opening(text: &[u8], at: Place) -> Result<Seen, Refused>
    requires { (Stands text.now at) × (at.offset < length text.now) }
    ensures { result ≡ opening text.now at }
{
    let mode = match byte(text, at.offset + 1) {
        97 => Mode::Ascii,
        120 => Mode::Hex,
        98 => Mode::Binary,
        _ => {
            return stray(text, at);
        }
    };
    Ok(Seen::Opened {
        mode,
        next: at.on(2),
    })
}

// Past the blanks between runs.
#[tactic(auto, unfolding(crate::specs::ByteArrays::outside))]
fn outside(text: &[u8], at: Place) -> Result<Seen, Refused>
    requires { Stands text.now at }
    ensures { result ≡ outside text.now at }
{
    match byte(text, at.offset) {
        256 => Err(Refused {
            refusal: Refusal::EndOfInput,
            at,
        }),
        93 => Ok(Seen::Shut { next: at.on(1) }),
        92 => opening(text, at),
        _ => Err(Refused {
            refusal: Refusal::BadByteArray,
            at: at.next(text),
        }),
    }
}

// Between runs.
#[tactic(auto, using(crate::specs::ByteArrayLaws::blanks_stand), unfolding(crate::specs::ByteArrays::between))]
fn between(text: &[u8], at: Place) -> Result<Seen, Refused>
    requires { Stands text.now at }
    ensures { result ≡ between text.now at }
{
    let next = skip(text, at)?.next;
    outside(text, next)
}

// A byte of a `\a` run that stands for itself.
#[inline(always)]
fn plain(b: u32, at: Place) -> Seen
    requires { (at.offset + 2 < 2 ^ 32) × (at.column + 2 < 2 ^ 32) }
    ensures { result ≡ plain b at }
{
    Seen::Byte {
        value: b,
        mode: Mode::Ascii,
        next: at.on(1),
    }
}

// A byte of a `\a` run that is written by an escape.
#[inline(always)]
fn coded(v: u32, at: Place) -> Seen
    requires { (at.offset + 2 < 2 ^ 32) × (at.column + 2 < 2 ^ 32) }
    ensures { result ≡ coded v at }
{
    Seen::Byte {
        value: v,
        mode: Mode::Ascii,
        next: at.on(2),
    }
}

// The `\` at `at` in a `\a` run: an escape of one letter, or another run opens.
#[tactic(auto, unfolding(crate::specs::ByteArrays::mark))]
fn mark(text: &[u8], at: Place) -> Result<Seen, Refused>
    requires { (Stands text.now at) × (at.offset < length text.now) }
    ensures { result ≡ mark text.now at }
{
    let b = byte(text, at.offset + 1);
    let v = letter(b);
    if v < 256 {
        return Ok(coded(v, at));
    }
    match b {
        98 | 120 => between(text, at),
        _ => stray(text, at),
    }
}

// The `/` at `at` in a `\a` run: a comment closes the run.
#[tactic(auto, unfolding(crate::specs::ByteArrays::slash))]
fn slash(text: &[u8], at: Place) -> Result<Seen, Refused>
    requires { Stands text.now at }
    ensures { result ≡ slash text.now at }
{
    match byte(text, at.offset + 1) {
        42 | 47 => between(text, at),
        _ => Ok(plain(47, at)),
    }
}

// The line end at `at` in a `\a` run: it may not follow a space.
#[tactic(auto, unfolding(crate::specs::ByteArrays::line_end))]
fn line_end(text: &[u8], last: u32, at: Place) -> Result<Seen, Refused>
    requires { Stands text.now at }
    ensures { result ≡ line_end text.now last at }
{
    if last == 32 {
        return Err(Refused {
            refusal: Refusal::BadByteArray,
            at,
        });
    }
    between(text, at)
}

// The byte b at `at` in a `\a` run, which is no sign there: printable ASCII is content, and all else closes the run, as `]` does.
#[inline(always)]
#[tactic(auto, unfolding(crate::specs::ByteArrays::printed))]
fn printed(text: &[u8], b: u32, at: Place) -> Result<Seen, Refused>
    requires { Stands text.now at }
    ensures { result ≡ printed text.now b at }
{
    match b {
        93 => between(text, at),
        32..=126 => Ok(plain(b, at)),
        _ => between(text, at),
    }
}

// In a `\a` run.
#[inline(always)]
#[tactic(auto, unfolding(crate::specs::ByteArrays::ascii))]
fn ascii(text: &[u8], last: u32, at: Place) -> Result<Seen, Refused>
    requires { Stands text.now at }
    ensures { result ≡ ascii text.now last at }
{
    let b = byte(text, at.offset);
    match b {
        92 => mark(text, at),
        47 => slash(text, at),
        10 | 13 => line_end(text, last, at),
        9 => Err(Refused {
            refusal: Refusal::BadByteArray,
            at,
        }),
        _ => printed(text, b, at),
    }
}

// Whether a byte is a letter or digit of ASCII.
#[tactic(auto, unfolding(crate::specs::ByteArrays::is_alphanumeric))]
fn alphanumeric(b: u32) -> bool
    ensures { result ≡ is_alphanumeric b }
{
    matches!(b, 48..=57 | 65..=90 | 97..=122)
}

// A pair of hex digits at `at`, or what stands there between runs.
#[tactic(auto, unfolding(crate::specs::ByteArrays::pair))]
fn pair(text: &[u8], at: Place) -> Result<Seen, Refused>
    requires { Stands text.now at }
    ensures { result ≡ pair text.now at }
{
    let b = byte(text, at.offset);
    if !alphanumeric(b) {
        return outside(text, at);
    }
    let h = digit(b);
    if 16 <= h {
        return stray(text, at);
    }
    let l = digit(byte(text, at.offset + 1));
    if 16 <= l {
        return stray(text, at);
    }
    Ok(Seen::Byte {
        value: h * 16 + l,
        mode: Mode::Hex,
        next: at.on(2),
    })
}

// In a `\x` run.
#[tactic(auto, using(crate::specs::ByteArrayLaws::blanks_stand), unfolding(crate::specs::ByteArrays::hex))]
fn hex(text: &[u8], at: Place) -> Result<Seen, Refused>
    requires { Stands text.now at }
    ensures { result ≡ hex text.now at }
{
    let next = skip(text, at)?.next;
    pair(text, next)
}

// The value of a bit, or 2.
#[tactic(auto, unfolding(crate::specs::ByteArrays::bit_of))]
fn bit(b: u32) -> u32
    ensures { result ≡ bit_of b }
{
    match b {
        48 => 0,
        49 => 1,
        _ => 2,
    }
}

// Eight bits from `at` on.
fn bits(text: &[u8], at: Place) -> Result<Seen, Refused>
    requires { Stands text.now at }
    ensures { result ≡ bits 8 0 text.now at }
{
    let mut p = at;
    let mut v: u32 = 0;
    for _ in 0..8u32 {
        let b = byte(text, p.offset);
        let d = bit(b);
        if 2 <= d {
            return Err(Refused {
                refusal: Refusal::BadByteArray,
                at: p.next(text),
            });
        }
        v = v * 2 + d;
        p = p.on(1);
    }
    Ok(Seen::Byte {
        value: v,
        mode: Mode::Binary,
        next: p,
    })
}

// Eight bits at `at`, or what stands there between runs.
#[tactic(auto, unfolding(crate::specs::ByteArrays::eight))]
fn eight(text: &[u8], at: Place) -> Result<Seen, Refused>
    requires { Stands text.now at }
    ensures { result ≡ eight text.now at }
{
    let b = byte(text, at.offset);
    let d = bit(b);
    if 2 <= d {
        return outside(text, at);
    }
    bits(text, at)
}

// In a `\b` run.
#[tactic(auto, using(crate::specs::ByteArrayLaws::blanks_stand), unfolding(crate::specs::ByteArrays::binary))]
fn binary(text: &[u8], at: Place) -> Result<Seen, Refused>
    requires { Stands text.now at }
    ensures { result ≡ binary text.now at }
{
    let next = skip(text, at)?.next;
    eight(text, next)
}

// What the text at `at` is. Seen by step this walks over the bytes: begin past `#[`, between runs, with `last` 256. Put into its callers, as
// the leaves of a `\a` run are, so that no answer is copied for each byte.
#[inline(always)]
#[tactic(auto, unfolding(crate::specs::ByteArrays::step))]
pub fn step(text: &[u8], mode: Mode, last: u32, at: Place) -> Result<Seen, Refused>
    requires { Stands text.now at }
    ensures { result ≡ step text.now mode last at }
{
    match mode {
        Mode::Between => between(text, at),
        Mode::Ascii => ascii(text, last, at),
        Mode::Hex => hex(text, at),
        Mode::Binary => binary(text, at),
    }
}

// The bytearray whose `#[` ends at `at`, up to past its `]`.
pub fn bytearray(text: &[u8], at: Place) -> Result<Token, Refused>
    requires { Stands text.now at }
    ensures { result ≡ bytearray text.now at }
{
    let mut p = at;
    let mut mode = Mode::Between;
    let mut last: u32 = 256;
    loop {
        match step(text, mode, last, p)? {
            Seen::Byte {
                value,
                mode: run,
                next,
            } => {
                last = value;
                mode = run;
                p = next;
            }
            Seen::Opened { mode: run, next } => {
                mode = run;
                p = next;
            }
            Seen::Shut { next } => {
                return Ok(Token { here: at, next });
            }
        }
    }
}
