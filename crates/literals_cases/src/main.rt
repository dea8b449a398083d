// Replays cases of the literal layer. Standard input is a list of cases (crate `cases`), each a text `x = ..` with a
// literal behind signs or opening brackets. One line says what the literal is: its kind, place, value and the place
// after it, or the refusal. oracle/cases.py makes the list and, from the engine's reader, what must be written.
#![tactic(auto)]

ghost use Rattle.std.specs.Prelude.{◌≡◌, true, ◌<◌, ◌^◌, length};
ghost use Rattle.characters.specs.Text.{Stands};

use cases::say;
use characters::place::{Place, Span, byte};
use characters::tokens;
use characters::tokens::Look;
use literals::bytearrays::{Mode, Seen};
use literals::numbers::Numeral;
use literals::{bytearrays, numbers, strings};

fn main() {
    let mut space = io::large_buffer();
    cases::replay_input(&mut space, answer);
}

// The literal of one text. All cases are of one kind.
fn answer(_kind: u8, text: &[u8])
    requires { length text.now < 2 ^ 31 }
{
    match tokens::token(text, cases::start_of(text), b"x = ") {
        Ok(Look::Found { here: _, next }) => {
            say_literal(text, past_signs(text, next));
        }
        _ => {
            say::bytes(b"no literal");
        }
    }
    say::bytes(b"\n");
}

// Past spaces, signs and opening brackets, which are not the literal's.
fn past_signs(text: &[u8], at: Place) -> Place
    requires { Stands text.now at }
    ensures { Stands text.now result }
{
    let mut p = at;
    loop {
        let b = byte(text, p.offset);
        if !is_sign(b) {
            return p;
        }
        p = p.on(1);
    }
}

// A space, `!`, `(`, `+`, `-` or `{`.
fn is_sign(b: u32) -> bool
    ensures { result ≡ true → b < 256 }
{
    matches!(b, 32 | 33 | 40 | 43 | 45 | 123)
}

// What stands there: a quote opens a string, `#` a bytearray, and all else is read as a number.
fn say_literal(text: &[u8], at: Place)
    requires { Stands text.now at }
{
    match byte(text, at.offset) {
        34 | 39 => {
            say_string(text, at);
        }
        35 => {
            say_bytearray(text, at);
        }
        _ => {
            say_number(text, at);
        }
    }
}

fn say_number(text: &[u8], at: Place)
    requires { Stands text.now at }
{
    match numbers::number(text, at) {
        Ok(Numeral::Int { value, next }) => {
            let v = value as u64;
            head(b"int ", at);
            io::print_decimal(1, v);
            say::bytes(b" ");
            say::place(next);
        }
        Ok(Numeral::Float { next }) => {
            head(b"float ", at);
            say::bytes(strings::part(text, at.offset, next.offset));
            say::bytes(b" ");
            say::place(next);
        }
        Err(e) => {
            say::refused(e);
        }
    }
}

fn say_string(text: &[u8], at: Place)
    requires { Stands text.now at }
{
    match strings::string(text, at) {
        Ok(token) => {
            head(b"string ", at);
            let span = Span {
                from: token.here.offset,
                to: token.next.offset,
            };
            spell(strings::key(text, span));
            say::place(token.next);
        }
        Err(e) => {
            say::refused(e);
        }
    }
}

// The characters that a string spells, each as its number.
fn spell(inner: &[u8])
    requires { length inner.now < 2 ^ 31 }
{
    let mut at: u32 = 0;
    while let Some(found) = strings::piece(inner, at) {
        say_hex(found.value, 1);
        at = found.next;
    }
}

fn say_bytearray(text: &[u8], at: Place)
    requires { Stands text.now at }
{
    match tokens::token(text, at, b"#[") {
        Ok(Look::Found { here, next }) => {
            say_contents(text, here, next);
        }
        _ => {
            say::bytes(b"no literal");
        }
    }
}

// The bytearray whose `#[` stands at `here` and ends at `at`.
fn say_contents(text: &[u8], here: Place, at: Place)
    requires { Stands text.now at }
{
    match bytearrays::bytearray(text, at) {
        Ok(token) => {
            head(b"bytes ", here);
            list(text, at);
            say::place(token.next);
        }
        Err(e) => {
            say::refused(e);
        }
    }
}

// The bytes of a bytearray, from past its `#[` on.
fn list(text: &[u8], at: Place)
    requires { Stands text.now at }
{
    let mut p = at;
    let mut mode = Mode::Between;
    let mut last: u32 = 256;
    while let Ok(seen) = bytearrays::step(text, mode, last, p) {
        match seen {
            Seen::Byte {
                value,
                mode: run,
                next,
            } => {
                say_hex(value, 2);
                last = value;
                mode = run;
                p = next;
            }
            Seen::Opened { mode: run, next } => {
                mode = run;
                p = next;
            }
            Seen::Shut { next: _ } => {
                return;
            }
        }
    }
}

// What opens a line: the literal's kind and its place.
fn head(kind: &[u8], at: Place) {
    say::bytes(kind);
    say::place(at);
    say::bytes(b" ");
}

fn say_hex(v: u32, width: usize) {
    io::print_hex(1, v as u64, width);
    say::bytes(b" ");
}
