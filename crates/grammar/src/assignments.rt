// Steps and assignments: what tells such a statement from an expression.
ghost use Rattle.std.specs.Prelude.{◌≡◌, [], ◌∷◌, ◌+◌, ◌<◌, ◌≤◌, drop, length};
ghost use Rattle.characters.specs.Text.{Stands, ascii, on_by};
ghost use Rattle.characters.specs.Blanks.{blanks};
ghost use Rattle.grammar.specs.Heads.{assign_of, step_of, step_past};
ghost use Rattle.grammar.specs.HeadLaws.{assign_rest};

use crate::heads::{Assignment, StepHead};
use characters::blanks::skip;
use characters::place::{Place, byte};
use characters::refusal::Refused;

// `++` or `--` here, as the operator `+` or `-`, and the place of its target; or neither.
pub fn step_of(text: &[u8], here: Place) -> Result<StepHead, Refused>
    requires { Stands text.now here }
    ensures { result ≡ step_of text.now here }
{
    let b = byte(text, here.offset);
    match b {
        43 => {
            let second = here.offset + 1;
            let c = byte(text, second);
            if c != 43 {
                return Ok(StepHead::Other);
            }
            target(text, here, 4)
        }
        45 => {
            let second = here.offset + 1;
            let c = byte(text, second);
            if c != 45 {
                return Ok(StepHead::Other);
            }
            target(text, here, 5)
        }
        _ => Ok(StepHead::Other),
    }
}

// The target of the two bytes here, past the blanks.
fn target(text: &[u8], here: Place, op: u32) -> Result<StepHead, Refused>
    requires { Stands text.now here × (here.offset + 2 ≤ length text.now) }
    ensures { result ≡ step_past op (blanks text.now (on_by 2 here)) }
{
    let after = here.on(2);
    let next = skip(text, after)?.next;
    Ok(StepHead::Step { op, next })
}

// The assignment sign here, told by its first byte; `==` is none.
pub fn assign_of(text: &[u8], here: Place) -> Option<Assignment>
    requires { Stands text.now here }
    ensures { result ≡ assign_of text.now here }
{
    let a = byte(text, here.offset);
    match a {
        37 => compound(text, here, 3),
        38 => compound(text, here, 16),
        42 => compound(text, here, 1),
        43 => compound(text, here, 4),
        45 => compound(text, here, 5),
        47 => compound(text, here, 2),
        60 => shift(text, here, 60, 6),
        61 => {
            let second = here.offset + 1;
            let b = byte(text, second);
            if b == 61 {
                return None;
            }
            let next = here.on(1);
            Some(Assignment { op: 0, next })
        }
        62 => shift(text, here, 62, 7),
        94 => compound(text, here, 17),
        124 => compound(text, here, 18),
        _ => None,
    }
}

// The assignment of this operator, whose sign of one byte stands here, if a `=` follows it.
fn compound(text: &[u8], here: Place, op: u32) -> Option<Assignment>
    requires { Stands text.now here }
    ensures { result ≡ assign_rest (ascii "=") op (drop (here.offset + 1) text.now) here }
{
    let second = here.offset + 1;
    let b = byte(text, second);
    if b != 61 {
        return None;
    }
    let next = here.on(2);
    Some(Assignment { op, next })
}

// The assignment of this shift, whose sign doubles the byte `a` here, if the second `a` and a `=` follow it.
fn shift(text: &[u8], here: Place, a: u32, op: u32) -> Option<Assignment>
    requires { Stands text.now here × (a < 256) }
    ensures { result ≡ assign_rest (a ∷ 61 ∷ []) op (drop (here.offset + 1) text.now) here }
{
    let second = here.offset + 1;
    let b = byte(text, second);
    if b != a {
        return None;
    }
    let third = here.offset + 2;
    let c = byte(text, third);
    if c != 61 {
        return None;
    }
    let next = here.on(3);
    Some(Assignment { op, next })
}
