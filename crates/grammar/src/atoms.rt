// Atoms: one record each, or the sign that opens a longer one.
ghost use Rattle.std.specs.Prelude.{◌≡◌, ◌≤◌, ◌<◌, length};
ghost use Rattle.characters.specs.Text.{ByteOf, Stands};
ghost use Rattle.characters.specs.Names.{name};
ghost use Rattle.characters.specs.WordNumbers.{number_of};
ghost use Rattle.literals.specs.Numbers.{number};
ghost use Rattle.records.specs.Words.{span_word};
ghost use Rattle.grammar.specs.declared.leaves.Atom.TheVariants.{Leaf};
ghost use Rattle.grammar.specs.Leaves.{atom_of, name_atom, number_atom, word_atom};
ghost use Rattle.grammar.specs.AtomLaws.{hash_atom, host_atom, sign_atom, string_atom};

use crate::leaves::Atom;
use characters::names::{is_letter, name, word};
use characters::place::{Place, Span, byte};
use characters::refusal::{Refusal, Refused};
use characters::reserved::Word;
use literals::bytearrays::bytearray;
use literals::numbers::{Numeral, number};
use literals::strings::string;
use records::kind::Kind;
use records::words::pack;

// The atom that is a span of the text, from `from` to `next`.
fn span_atom(kind: Kind, from: u32, next: Place) -> Atom
    requires { (from ≤ 65535) × (next.offset ≤ 65535) }
    ensures { result ≡ Leaf kind (span_word from next.offset) next }
{
    let span = Span {
        from,
        to: next.offset,
    };
    let word = pack(span);
    Atom::Leaf {
        kind,
        value: word as u64,
        next,
    }
}

// The number at `at`: an int's value, or a float's span.
fn number_atom(text: &[u8], at: Place) -> Result<Atom, Refused>
    requires { (Stands text.now at) × (length text.now ≤ 65535) }
    ensures { result ≡ number_atom at (number text.now at) }
{
    match number(text, at)? {
        Numeral::Int { value, next } => {
            let v = value as u64;
            Ok(Atom::Leaf {
                kind: Kind::Int,
                value: v,
                next,
            })
        }
        Numeral::Float { next } => Ok(span_atom(Kind::Float, at.offset, next)),
    }
}

// The atom that a reserved word is: only three of them are one.
fn word_atom(word: Word, here: Place, next: Place) -> Result<Atom, Refused>
    ensures { result ≡ word_atom (number_of word) here next }
{
    match word {
        Word::True => Ok(Atom::Leaf {
            kind: Kind::True,
            value: 0,
            next,
        }),
        Word::False => Ok(Atom::Leaf {
            kind: Kind::False,
            value: 0,
            next,
        }),
        Word::Nil => Ok(Atom::Leaf {
            kind: Kind::Nil,
            value: 0,
            next,
        }),
        _ => Err(Refused {
            refusal: Refusal::ReservedWord,
            at: here,
        }),
    }
}

// `true`, `false`, `nil` or a name: one look at its word decides.
fn name_atom(text: &[u8], at: Place) -> Result<Atom, Refused>
    requires { (Stands text.now at) × (length text.now ≤ 65535) }
    ensures { result ≡ name_atom text.now (name text.now at) }
{
    let read = name(text, at)?;
    match word(text, read.here.offset, read.next.offset) {
        Some(word) => word_atom(word, read.here, read.next),
        None => Ok(span_atom(Kind::Name, read.here.offset, read.next)),
    }
}

// The string at `at`, with its quotes.
fn string_atom(text: &[u8], at: Place) -> Result<Atom, Refused>
    requires { (Stands text.now at) × (length text.now ≤ 65535) }
    ensures { result ≡ string_atom text.now at }
{
    let read = string(text, at)?;
    Ok(span_atom(Kind::String, at.offset, read.next))
}

// The host name behind the `$` at `at`; the span leaves the sign out.
fn host_atom(text: &[u8], at: Place) -> Result<Atom, Refused>
    requires { (Stands text.now at) × (length text.now ≤ 65535) × (at.offset < length text.now) }
    ensures { result ≡ host_atom text.now at }
{
    let after = at.on(1);
    let read = name(text, after)?;
    Ok(span_atom(Kind::Host, after.offset, read.next))
}

// The bytearray that the `#` at `at` begins, or 13 where no `[` follows.
fn hash_atom(text: &[u8], at: Place) -> Result<Atom, Refused>
    requires { (Stands text.now at) × (length text.now ≤ 65535) × (at.offset < length text.now) }
    ensures { result ≡ hash_atom text.now at }
{
    let after = at.offset + 1;
    let b = byte(text, after);
    if b != 91 {
        return Err(Refused {
            refusal: Refusal::UnknownAtom,
            at,
        });
    }
    let p = at.on(2);
    let read = bytearray(text, p)?;
    Ok(span_atom(Kind::Bytes, at.offset, read.next))
}

// The atom that begins with the sign `b`, which stands at `at`; 13 where none does.
fn sign_atom(text: &[u8], b: u32, at: Place) -> Result<Atom, Refused>
    requires { (Stands text.now at) × (length text.now ≤ 65535) × (ByteOf text.now at.offset b) }
    ensures { result ≡ sign_atom text.now b at }
{
    match b {
        40 => {
            let next = at.on(1);
            Ok(Atom::Paren { next })
        }
        91 => {
            let next = at.on(1);
            Ok(Atom::Bracket { next })
        }
        123 => {
            let next = at.on(1);
            Ok(Atom::Brace { next })
        }
        35 => hash_atom(text, at),
        36 => host_atom(text, at),
        124 => Ok(Atom::Bar),
        _ => Err(Refused {
            refusal: Refusal::UnknownAtom,
            at,
        }),
    }
}

// The atom at `at`, which is past the blanks; 13 where none begins.
pub fn atom_of(text: &[u8], at: Place) -> Result<Atom, Refused>
    requires { (Stands text.now at) × (length text.now ≤ 65535) }
    ensures { result ≡ atom_of text.now at }
{
    let b = byte(text, at.offset);
    if is_letter(b) {
        return name_atom(text, at);
    }
    match b {
        34 | 39 => string_atom(text, at),
        48..=57 => number_atom(text, at),
        _ => sign_atom(text, b, at),
    }
}
