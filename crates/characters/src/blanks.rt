// Blanks: spaces, line ends and comments between tokens.
ghost use Rattle.std.specs.Prelude.{◌≡◌, ◌+◌, ◌≤◌, ◌<◌, ◌^◌, drop, length};
ghost use Rattle.characters.specs.Text.{Stands, byte_at, start};
ghost use Rattle.characters.specs.Counts.{end_of};
ghost use Rattle.characters.specs.Blanks.{blanks, file_start, is_in_line, line_end, opens_blank, spaces};
ghost use Rattle.characters.specs.BlankLaws.{Closes};

use crate::place::{Place, Token, byte};
use crate::refusal::{Refusal, Refused};

// Past the blanks at `at`, or 19 where a comment does not end.
pub fn skip(text: &[u8], at: Place) -> Result<Token, Refused>
    requires { Stands text.now at }
    ensures { result ≡ blanks text.now at }
{
    let mut p = at;
    loop {
        let b = byte(text, p.offset);
        match b {
            32 => {
                let n = spaces(text, p.offset);
                p = p.on(n);
            }
            10 => {
                p = p.line_on();
            }
            9 | 12 | 13 => {
                p = p.on(1);
            }
            47 => {
                let c = byte(text, p.offset + 1);
                match c {
                    47 => {
                        p = line_end(text, p);
                    }
                    42 => {
                        let comment = block_end(text, p)?;
                        p = comment.next;
                    }
                    _ => {
                        return Ok(Token { here: at, next: p });
                    }
                }
            }
            _ => {
                return Ok(Token { here: at, next: p });
            }
        }
    }
}

// How many plain spaces stand from `from` on.
pub fn spaces(text: &[u8], from: u32) -> u32
    requires { length text.now < 2 ^ 31 }
    ensures { result ≡ spaces text.now from }
{
    let mut o = from;
    while byte(text, o) == 32 {
        o += 1;
    }
    o - from
}

// May a blank begin with this byte? Where not, there is nothing to skip.
pub fn opens_blank(b: u32) -> bool
    ensures { result ≡ opens_blank b }
{
    b < 33 || b == 47
}

// Where the line from `from` on stops: at its LF, or at the end of the text. Four bytes a turn.
fn line_stop(text: &[u8], from: usize) -> usize
    requires { (from ≤ length text.now) × (length text.now < 2 ^ 31) }
    ensures { result ≡ end_of is_in_line text.now from }
{
    let n = text.len();
    let mut i = from;
    while i + 4 <= n {
        if text[i] == 10 {
            return i;
        }
        if text[i + 1] == 10 {
            return i + 1;
        }
        if text[i + 2] == 10 {
            return i + 2;
        }
        if text[i + 3] == 10 {
            return i + 3;
        }
        i += 4;
    }
    for j in i..n {
        if text[j] == 10 {
            return j;
        }
    }
    n
}

// Past the last line, which no LF ends, so that its columns count.
fn last_line(text: &[u8], at: Place) -> Place
    requires { (Stands text.now at) × (length text.now ≤ end_of is_in_line text.now at.offset) }
    ensures { result ≡ line_end (drop at.offset text.now) at }
{
    let mut p = at;
    loop {
        let b = byte(text, p.offset);
        if b == 256 {
            return p;
        }
        p = p.past(b);
    }
}

// Past the line's LF, or at the end of the text. Before an LF no column counts.
pub fn line_end(text: &[u8], at: Place) -> Place
    requires { Stands text.now at }
    ensures { result ≡ line_end (drop at.offset text.now) at }
{
    let from = at.offset as usize;
    let stop = line_stop(text, from);
    if text.len() <= stop {
        return last_line(text, at);
    }
    Place {
        offset: stop as u32 + 1,
        line: at.line + 1,
        column: 1,
    }
}

// Past the comment that opens at `at`, whose inner comments nest. The place is answered field by field (`..p`): where it is copied whole, line
// and column are kept packed in one register all through the loop, which takes two to three times as long.
fn block_end(text: &[u8], at: Place) -> Result<Token, Refused>
    requires { (Stands text.now at) × (byte_at text.now at.offset ≡ 47) × (byte_at text.now (at.offset + 1) ≡ 42) }
    ensures { Closes text.now at result }
{
    let mut p = at.on(2);
    let mut depth: u32 = 0;
    loop {
        let b = byte(text, p.offset);
        match b {
            256 => {
                return Err(Refused {
                    refusal: Refusal::EndOfInput,
                    at: Place { ..p },
                });
            }
            47 => {
                if byte(text, p.offset + 1) == 42 {
                    depth += 1;
                    p = p.on(2);
                } else {
                    p = p.on(1);
                }
            }
            42 => {
                if byte(text, p.offset + 1) == 47 {
                    p = p.on(2);
                    if depth == 0 {
                        return Ok(Token {
                            here: at,
                            next: Place { ..p },
                        });
                    }
                    depth -= 1;
                } else {
                    p = p.on(1);
                }
            }
            _ => {
                p = p.past(b);
            }
        }
    }
}

// Where a unit in file form begins: past a first line that opens with `#!`.
pub fn file_start(text: &[u8]) -> Place
    requires { Stands text.now start }
    ensures { result ≡ file_start text.now }
{
    let first = Place::start();
    let a = byte(text, 0);
    if a != 35 {
        return first;
    }
    let b = byte(text, 1);
    if b != 33 {
        return first;
    }
    line_end(text, first)
}
