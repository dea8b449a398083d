// Replays cases of the character layer. Standard input is a list of cases (crate `cases`), and each case is answered by
// one line. oracle/cases.py makes the list and, from the engine's reader and Python's UTF-8 decoder, what must be
// written.
#![tactic(auto)]

ghost use Rattle.std.specs.Prelude.{◌<◌, ◌^◌, length};

use cases::say;
use characters::place::Place;
use characters::refusal::Refused;
use characters::tokens::Look;
use characters::{blanks, names, tokens, utf8};

fn main() {
    let mut space = io::large_buffer();
    cases::replay_input(&mut space, answer);
}

// What a kind asks of its text: b blanks, n a name that is no reserved word, m any name, k the keyword `break`, u UTF-8,
// c characters, f the file form.
fn answer(kind: u8, text: &[u8])
    requires { length text.now < 2 ^ 31 }
{
    match kind {
        b'b' => {
            say::taken(blanks::skip(text, cases::start_of(text)));
        }
        b'n' => {
            say::taken(names::free_name(text, cases::start_of(text)));
        }
        b'm' => {
            say::taken(names::name(text, cases::start_of(text)));
        }
        b'k' => {
            say_look(tokens::keyword(text, cases::start_of(text), b"break"));
        }
        b'u' => {
            say_utf8(utf8::well_formed(text), utf8::prefix_place(text));
        }
        b'c' => {
            walk(text);
        }
        b'f' => {
            say::place(blanks::file_start(text));
        }
        _ => {
            say::bytes(b"no such kind");
        }
    }
    say::bytes(b"\n");
}

// Each character with its place, then the end, where NUL is read and the column still moves.
fn walk(text: &[u8])
    requires { length text.now < 2 ^ 31 }
{
    let mut p = cases::start_of(text);
    let n = text.len() as u32;
    while p.offset < n {
        say_character(text, p);
        p = p.next(text);
    }
    say_character(text, p);
    say::place(p.next(text));
}

fn say_character(text: &[u8], p: Place) {
    let v = utf8::char_at(text, p.offset as usize);
    say::place(p);
    say::bytes(b"=");
    io::print_hex(1, v as u64, 1);
    say::bytes(b" ");
}

fn say_utf8(well: bool, p: Place) {
    if well {
        say::bytes(b"ok ");
    } else {
        say::bytes(b"3 ");
    }
    say::place(p);
}

fn say_look(answer: Result<Look, Refused>) {
    match answer {
        Ok(Look::Found { here, next }) => {
            say::bytes(b"found ");
            say::place(here);
            say::bytes(b" ");
            say::place(next);
        }
        Ok(Look::Missing { here }) => {
            say::bytes(b"missing ");
            say::place(here);
        }
        Err(e) => say::refused(e),
    }
}
