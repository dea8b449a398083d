// Number literals: decimal, `0x` and `0b`.
ghost use Rattle.std.specs.Prelude.{◌≡◌, false, true, ◌+◌, ◌*◌, ◌<◌, drop, length};
ghost use Rattle.characters.specs.Text.{Stands};
ghost use Rattle.literals.specs.Numbers.{
  based,
  decimal,
  digit_of,
  digits,
  dotted,
  exponent,
  exponent_or,
  fraction,
  number,
  run,
  signed,
  whole,
};
ghost use Rattle.literals.specs.NumberSums.{Base, Power, fewer_of, held, held_run};

use crate::strings::hex;
use characters::place::{Place, byte};
use characters::refusal::{Refusal, Refused};

// A number literal, with the place after it: an integer, or a float, whose value is worked out from its span.
#[derive(Clone, Copy, Debug, PartialEq, Eq)]
pub enum Numeral {
    Int { value: i64, next: Place },
    Float { next: Place },
}

// A run of digits: its value, held at 2^63 if it is larger, and the place after it.
#[derive(Clone, Copy, Debug, PartialEq, Eq)]
pub struct Digits {
    pub value: u64,
    pub next: Place,
}

// The largest values whose product with 16, 10 and 2 is below 2^63.
const ROOM_16: u64 = 576460752303423487;

const ROOM_10: u64 = 922337203685477580;

const ROOM_2: u64 = 4611686018427387903;

// The value of a digit; 16 of a byte that is none.
fn digit(b: u32) -> u64
    ensures { result ≡ digit_of b }
{
    hex(b) as u64
}

// `value * radix + d`, held at 2^63.
fn sum(value: u64, radix: u64, room: u64, d: u64) -> u64
    requires { Base radix room × (d < radix) }
    ensures { result ≡ held (value * radix + d) }
{
    if room < value {
        return 9223372036854775808;
    }
    let product = value * radix;
    let total = product + d;
    if total < 9223372036854775808 {
        return total;
    }
    9223372036854775808
}

// How many more digits stay below 2^127 after the digit `d`, where `left` did before it.
#[tactic(auto, unfolding(crate::specs::NumberSums::fewer_of))]
fn fewer(value: u64, left: u32, radix: u64, d: u64) -> u32
    requires { 0 < left }
    ensures { result ≡ fewer_of value left radix d }
{
    if 0 < value {
        return left - 1;
    }
    if d == 0 {
        return left;
    }
    if radix == 2 {
        return 126;
    }
    if d < 8 {
        return 31;
    }
    30
}

// The digits of `0x` and `0b`. No sum of 128 bits: `left` says how many more digits stay below 2^127.
fn limited(text: &[u8], at: Place, radix: u64, room: u64) -> Result<Digits, Refused>
    requires { Stands text.now at × Base radix room × Power radix }
    ensures { result ≡ held_run (run true radix 0 (drop at.offset text.now) at) }
{
    let mut p = at;
    let mut value: u64 = 0;
    let mut left: u32 = 127;
    loop {
        let b = byte(text, p.offset);
        let d = digit(b);
        if d < radix {
            if left == 0 {
                return Err(Refused {
                    refusal: Refusal::IntegerTooLarge,
                    at: p,
                });
            }
            left = fewer(value, left, radix, d);
            value = sum(value, radix, room, d);
            p = p.on(1);
        } else if b == 95 {
            let q = p.on(1);
            let c = byte(text, q.offset);
            let e = digit(c);
            if radix <= e {
                return Err(Refused {
                    refusal: Refusal::MisplacedSeparator,
                    at: p,
                });
            }
            p = q;
        } else {
            return Ok(Digits { value, next: p });
        }
    }
}

// Decimal digits; `none` is the refusal where the first of them is missing. Put into its callers, since a float wants no value. Places are
// answered field by field (`..p`), so that each stays in registers.
#[inline(always)]
fn decimals(text: &[u8], at: Place, none: Refusal) -> Result<Digits, Refused>
    requires { Stands text.now at }
    ensures { result ≡ held_run (digits false none 10 text.now at) }
{
    let first = byte(text, at.offset);
    let f = digit(first);
    if 10 <= f {
        return Err(Refused {
            refusal: none,
            at: Place { ..at },
        });
    }
    let mut p = at;
    let mut value: u64 = 0;
    loop {
        let b = byte(text, p.offset);
        let d = digit(b);
        if d < 10 {
            value = sum(value, 10, ROOM_10, d);
            p = p.on(1);
        } else if b == 95 {
            let q = p.on(1);
            let c = byte(text, q.offset);
            let e = digit(c);
            if 10 <= e {
                return Err(Refused {
                    refusal: Refusal::MisplacedSeparator,
                    at: Place { ..p },
                });
            }
            p = q;
        } else {
            return Ok(Digits {
                value,
                next: Place { ..p },
            });
        }
    }
}

// An integer literal of this value.
#[tactic(auto, unfolding(crate::specs::Numbers::whole))]
fn integer(value: u64, next: Place) -> Result<Numeral, Refused>
    ensures { result ≡ whole value next }
{
    if value < 9223372036854775808 {
        let signed = value as i64;
        return Ok(Numeral::Int {
            value: signed,
            next: Place { ..next },
        });
    }
    Err(Refused {
        refusal: Refusal::OutsideInt64,
        at: Place { ..next },
    })
}

// Past a sign, if there is one.
fn signed(text: &[u8], at: Place) -> Place
    requires { Stands text.now at }
    ensures { result ≡ signed text.now at }
{
    match byte(text, at.offset) {
        43 | 45 => at.on(1),
        _ => at,
    }
}

// An exponent, from the place after its `e`.
fn exponent(text: &[u8], at: Place) -> Result<Numeral, Refused>
    requires { Stands text.now at }
    ensures { result ≡ exponent text.now at }
{
    let p = signed(text, at);
    let read = decimals(text, p, Refusal::NoExponentDigits)?;
    Ok(Numeral::Float { next: read.next })
}

// The exponent at a place, or `plain` where there is none.
#[tactic(auto, unfolding(crate::specs::Numbers::exponent_or))]
fn exponent_or(text: &[u8], at: Place, plain: Result<Numeral, Refused>) -> Result<Numeral, Refused>
    requires { Stands text.now at }
    ensures { result ≡ exponent_or text.now at plain }
{
    match byte(text, at.offset) {
        69 | 101 => exponent(text, at.on(1)),
        _ => plain,
    }
}

// A fraction, from the place after its dot.
fn fraction(text: &[u8], at: Place) -> Result<Numeral, Refused>
    requires { Stands text.now at }
    ensures { result ≡ fraction text.now at }
{
    let read = decimals(text, at, Refusal::ExpectedDigit)?;
    let plain = Numeral::Float { next: read.next };
    exponent_or(text, read.next, Ok(plain))
}

// What stands at a dot behind digits of this value.
#[tactic(auto, unfolding(crate::specs::Numbers::dotted))]
fn dotted(text: &[u8], value: u64, at: Place) -> Result<Numeral, Refused>
    requires { Stands text.now at × (at.offset < length text.now) }
    ensures { result ≡ dotted text.now value at }
{
    let p = at.on(1);
    let b = byte(text, p.offset);
    if b == 95 {
        return Err(Refused {
            refusal: Refusal::MisplacedSeparator,
            at,
        });
    }
    let d = digit(b);
    if d < 10 {
        return fraction(text, p);
    }
    integer(value, at)
}

// A decimal literal.
fn decimal(text: &[u8], at: Place) -> Result<Numeral, Refused>
    requires { Stands text.now at }
    ensures { result ≡ decimal text.now at }
{
    let read = decimals(text, at, Refusal::ExpectedDigit)?;
    let b = byte(text, read.next.offset);
    if b == 46 {
        return dotted(text, read.value, read.next);
    }
    let plain = integer(read.value, read.next);
    exponent_or(text, read.next, plain)
}

// A literal of `0x` or `0b`, from the place after it.
fn based(text: &[u8], at: Place, radix: u64, room: u64) -> Result<Numeral, Refused>
    requires { Stands text.now at × Base radix room × Power radix }
    ensures { result ≡ based radix text.now at }
{
    let first = byte(text, at.offset);
    let f = digit(first);
    if radix <= f {
        return Err(Refused {
            refusal: Refusal::ExpectedDigit,
            at: Place { ..at },
        });
    }
    let read = limited(text, at, radix, room)?;
    integer(read.value, read.next)
}

// The number literal at a place; 16 where no digit stands there.
#[tactic(auto, unfolding(crate::specs::Numbers::number))]
pub fn number(text: &[u8], at: Place) -> Result<Numeral, Refused>
    requires { Stands text.now at }
    ensures { result ≡ number text.now at }
{
    let b = byte(text, at.offset);
    if b != 48 {
        return decimal(text, at);
    }
    match byte(text, at.offset + 1) {
        120 => based(text, at.on(2), 16, ROOM_16),
        98 => based(text, at.on(2), 2, ROOM_2),
        _ => decimal(text, at),
    }
}
