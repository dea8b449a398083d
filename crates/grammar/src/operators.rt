// The links of a chain: what follows an operand, told by its first bytes.
ghost use Rattle.std.specs.Prelude.{◌≡◌, ◌<◌, length};
ghost use Rattle.characters.specs.Text.{Stands};
ghost use Rattle.grammar.specs.Operators.{operator_of, strength_of};
ghost use Rattle.grammar.specs.Leaves.{link_of};
ghost use Rattle.grammar.specs.LinkLaws.{sign_of};

use crate::leaves::Link;
use characters::place::{Place, byte};

// How tightly an operator binds, the lower the tighter; 0 for a number of none.
pub fn strength_of(op: u32) -> u32
    ensures { result ≡ strength_of op }
{
    match op {
        1 => 3,
        2 => 3,
        3 => 3,
        4 => 4,
        5 => 4,
        6 => 5,
        7 => 5,
        8 => 6,
        9 => 6,
        10 => 6,
        11 => 6,
        12 => 7,
        13 => 7,
        14 => 11,
        15 => 12,
        16 => 8,
        17 => 9,
        18 => 10,
        _ => 0,
    }
}

// The bytes of an operator's sign.
fn width_of(op: u32) -> u32
    ensures { result ≡ length (operator_of op).sign }
{
    match op {
        1 => 1,
        2 => 1,
        3 => 1,
        4 => 1,
        5 => 1,
        6 => 2,
        7 => 2,
        8 => 2,
        9 => 1,
        10 => 2,
        11 => 1,
        12 => 2,
        13 => 2,
        14 => 2,
        15 => 2,
        16 => 1,
        17 => 1,
        18 => 1,
        _ => 0,
    }
}

// What three bytes begin, 256 being none: an operator's number, 0 for nothing, 19 for `?`, 20 for an assignment sign.
fn sign_of(a: u32, b: u32, c: u32) -> u32
    ensures { result ≡ sign_of a b c }
{
    match a {
        33 => if b == 61 { 13 } else { 0 },
        37 => if b == 61 { 20 } else { 3 },
        38 => match b {
            38 => 14,
            61 => 20,
            _ => 16,
        },
        42 => if b == 61 { 20 } else { 1 },
        43 => if b == 61 { 20 } else { 4 },
        45 => if b == 61 { 20 } else { 5 },
        47 => if b == 61 { 20 } else { 2 },
        60 => match b {
            60 => if c == 61 { 20 } else { 6 },
            61 => 8,
            _ => 9,
        },
        61 => if b == 61 { 12 } else { 20 },
        62 => match b {
            61 => 10,
            62 => if c == 61 { 20 } else { 7 },
            _ => 11,
        },
        63 => 19,
        94 => if b == 61 { 20 } else { 17 },
        124 => match b {
            61 => 20,
            124 => 15,
            _ => 18,
        },
        _ => 0,
    }
}

// What stands at a place that is past the blanks.
pub fn link_of(text: &[u8], at: Place) -> Link
    requires { Stands text.now at }
    ensures { result ≡ link_of text.now at }
{
    let second = at.offset + 1;
    let third = at.offset + 2;
    let a = byte(text, at.offset);
    let b = byte(text, second);
    let c = byte(text, third);
    let sign = sign_of(a, b, c);
    match sign {
        0 => Link::End,
        19 => {
            let next = at.on(1);
            Link::Choice { next }
        }
        20 => Link::Assign,
        _ => {
            let n = width_of(sign);
            let next = at.on(n);
            Link::Operator { op: sign, next }
        }
    }
}
