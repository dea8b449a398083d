// What stands at a place: the answers of the leaves, which do all reading of the text.
ghost use Rattle.std.specs.Prelude.{◌≡◌, ◌+◌, ◌<◌, ◌≤◌, ◌^◌, length};
ghost use Rattle.characters.specs.Text.{ByteOf, Stands, byte_at, on_by};
ghost use Rattle.characters.specs.Names.{name};
ghost use Rattle.grammar.specs.LeafLaws.{follow_at};
ghost use Rattle.grammar.specs.Leaves.{close_by, close_of, follow_of, instance_by, key_at, member_by, postfix_by, postfix_of, prefix_by, prefix_of};

use crate::blanks::past;
use crate::rows::name_word;
use characters::blanks::skip;
use characters::names::{is_name_byte, name};
use characters::place::{Place, Token, byte};
use characters::refusal::{Refusal, Refused};
use characters::tokens::{Look, spelled};
use literals::strings::string;
use records::kind::Kind;

// What an operand begins with: a prefix sign and the place after it, or no sign.
#[derive(Clone, Copy, Debug, PartialEq, Eq)]
pub enum Prefix {
    Sign { sign: u32, here: Place, next: Place },
    Other { here: Place },
}

// An atom: the kind and the value of its one record, or what opens a longer one; with the place after it.
#[derive(Clone, Copy, Debug, PartialEq, Eq)]
pub enum Atom {
    Leaf { kind: Kind, value: u64, next: Place },
    Paren { next: Place },
    Bracket { next: Place },
    Brace { next: Place },
    Bar,
}

// What follows a base: a suffix, or nothing more.
#[derive(Clone, Copy, Debug, PartialEq, Eq)]
pub enum Postfix {
    More { suffix: Suffix },
    Rest { here: Place },
}

// A call, an index, or a member's or class's name as a span; with the place of its sign and the place after it.
#[derive(Clone, Copy, Debug, PartialEq, Eq)]
pub enum Suffix {
    Call { here: Place, next: Place },
    Index { here: Place, next: Place },
    Member { here: Place, span: u32, next: Place },
    InstanceOf { here: Place, span: u32, next: Place },
}

// What follows an operand of a chain.
#[derive(Clone, Copy, Debug, PartialEq, Eq)]
pub enum Link {
    Choice { next: Place },
    Operator { op: u32, next: Place },
    Assign,
    End,
}

// Past the blanks `!`, `-`, `+` or none of them; `++` and `--` are 23.
pub fn prefix_of(text: &[u8], at: Place) -> Result<Prefix, Refused>
    requires { Stands text.now at }
    ensures { result ≡ prefix_of text.now at }
{
    let front = past(text, at)?;
    prefix_at(text, front.here, front.byte)
}

// The prefix sign here, by its first byte `b`; a second byte is read only where that could double.
fn prefix_at(text: &[u8], here: Place, b: u32) -> Result<Prefix, Refused>
    requires { Stands text.now here × ByteOf text.now here.offset b }
    ensures { result ≡ prefix_by (byte_at text.now here.offset) (byte_at text.now (here.offset + 1)) here }
{
    match b {
        33 => {
            let next = here.on(1);
            Ok(Prefix::Sign {
                sign: b,
                here,
                next,
            })
        }
        43 | 45 => {
            let c = byte(text, here.offset + 1);
            if c == b {
                return Err(Refused {
                    refusal: Refusal::IncrementAsExpression,
                    at: here,
                });
            }
            let next = here.on(1);
            Ok(Prefix::Sign {
                sign: b,
                here,
                next,
            })
        }
        _ => Ok(Prefix::Other { here }),
    }
}

// Past the blanks `(`, `[`, `.` and a name directly, `instanceof` and a name, or none of them; `++` and `--` are 22.
pub fn postfix_of(text: &[u8], at: Place) -> Result<Postfix, Refused>
    requires { Stands text.now at × (length text.now ≤ 65535) }
    ensures { result ≡ postfix_of text.now at }
{
    let front = past(text, at)?;
    postfix_at(text, front.here, front.byte)
}

// What follows a base here, by its first byte `b`.
fn postfix_at(text: &[u8], here: Place, b: u32) -> Result<Postfix, Refused>
    requires { Stands text.now here × ByteOf text.now here.offset b × (length text.now ≤ 65535) }
    ensures { result ≡ postfix_by text.now (byte_at text.now here.offset) (byte_at text.now (here.offset + 1)) here }
{
    match b {
        40 => {
            let next = here.on(1);
            let suffix = Suffix::Call { here, next };
            Ok(Postfix::More { suffix })
        }
        91 => {
            let next = here.on(1);
            let suffix = Suffix::Index { here, next };
            Ok(Postfix::More { suffix })
        }
        46 => member(text, here),
        105 => instance(text, here),
        43 | 45 => {
            let c = byte(text, here.offset + 1);
            if c == b {
                let next = here.on(2);
                return Err(Refused {
                    refusal: Refusal::PostfixIncrement,
                    at: next,
                });
            }
            Ok(Postfix::Rest { here })
        }
        _ => Ok(Postfix::Rest { here }),
    }
}

// The name directly after the `.` here.
fn member(text: &[u8], here: Place) -> Result<Postfix, Refused>
    requires { Stands text.now here × (here.offset < length text.now) × (length text.now ≤ 65535) }
    ensures { result ≡ member_by here (name text.now (on_by 1 here)) }
{
    let from = here.on(1);
    let read = name(text, from)?;
    let span = name_word(read.here, read.next);
    let suffix = Suffix::Member {
        here,
        span,
        next: read.next,
    };
    Ok(Postfix::More { suffix })
}

// `instanceof` and a name, where an `i` stands here: only there is the keyword compared.
fn instance(text: &[u8], here: Place) -> Result<Postfix, Refused>
    requires { Stands text.now here × (length text.now ≤ 65535) }
    ensures { result ≡ postfix_by text.now 105 0 here }
{
    if !spelled(text, here.offset, b"instanceof") {
        return Ok(Postfix::Rest { here });
    }
    let after = here.on(10);
    let c = byte(text, after.offset);
    if is_name_byte(c) {
        return Ok(Postfix::Rest { here });
    }
    let from = skip(text, after)?.next;
    class_name(text, here, from)
}

// The name of a class at `from`, for the `instanceof` here.
fn class_name(text: &[u8], here: Place, from: Place) -> Result<Postfix, Refused>
    requires { Stands text.now from × (length text.now ≤ 65535) }
    ensures { result ≡ instance_by here (name text.now from) }
{
    let read = name(text, from)?;
    let span = name_word(read.here, read.next);
    let suffix = Suffix::InstanceOf {
        here,
        span,
        next: read.next,
    };
    Ok(Postfix::More { suffix })
}

// Past the blanks the sign `end` that closes a list, or an element; the end of the text is 19.
pub fn close_of(text: &[u8], at: Place, end: u8) -> Result<Look, Refused>
    requires { Stands text.now at }
    ensures { result ≡ close_of text.now at end }
{
    let front = past(text, at)?;
    close_at(front.here, front.byte, end)
}

// The sign `end` or an element here, by its byte.
fn close_at(here: Place, b: u32, end: u8) -> Result<Look, Refused>
    requires { (here.offset + 1 < 2 ^ 32) × (here.column + 1 < 2 ^ 32) }
    ensures { result ≡ close_by b end here }
{
    if b == 256 {
        return Err(Refused {
            refusal: Refusal::EndOfInput,
            at: here,
        });
    }
    let wanted = end as u32;
    if b != wanted {
        return Ok(Look::Missing { here });
    }
    let next = here.on(1);
    Ok(Look::Found { here, next })
}

// A dictionary key: a string, or a name.
pub fn key_at(text: &[u8], at: Place) -> Result<Token, Refused>
    requires { Stands text.now at }
    ensures { result ≡ key_at text.now at }
{
    let b = byte(text, at.offset);
    if b == 34 {
        return string(text, at);
    }
    if b == 39 {
        return string(text, at);
    }
    name(text, at)
}

// Past an element: found is the sign `end`, which closes the list; else a comma is taken, and the list goes on after it.
pub fn follow_of(text: &[u8], at: Place, end: u8) -> Result<Look, Refused>
    requires { Stands text.now at }
    ensures { result ≡ follow_of text.now at end }
{
    let front = past(text, at)?;
    follow_at(front.here, front.byte, end)
}

// The sign `end` or a comma here, by its byte.
fn follow_at(here: Place, b: u32, end: u8) -> Result<Look, Refused>
    requires { (here.offset + 1 < 2 ^ 32) × (here.column + 1 < 2 ^ 32) }
    ensures { result ≡ follow_at b end here }
{
    let wanted = end as u32;
    if b == wanted {
        let next = here.on(1);
        return Ok(Look::Found { here, next });
    }
    if b == 44 {
        let next = here.on(1);
        return Ok(Look::Missing { here: next });
    }
    Err(Refused {
        refusal: Refusal::ExpectedToken,
        at: here,
    })
}
