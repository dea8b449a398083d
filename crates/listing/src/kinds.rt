// What the listing says by a record's kind: its name, whether it has a position, and how its fields print.
ghost use Rattle.std.specs.Prelude.{◌≡◌, ◌∷◌, ◌<◌, get_or};
ghost use Rattle.listing.specs.Sheets.{Writes, sheet};
ghost use Rattle.listing.specs.Listing.{form_at, name_of, positioned};
ghost use Rattle.listing.specs.Laws.Kinds.{letters};

use crate::fields::{Form, word};
use crate::numbers::place;
use crate::sheet::put;
use characters::place::{Place, byte};
use records::kind::Kind;

// A space and the kind's name. The names stand in the order of the kinds' numbers.
pub fn title(out: &mut [u8], at: usize, kind: Kind) -> usize
    ensures { Writes (32 ∷ name_of kind) (sheet out.old at) (sheet out.new result) }
{
    let number = u32::from(kind);
    word(
        out,
        at,
        b" true false nil int float string bytes array dict name host closure index member instanceof unary binary choice call do assign return assert break continue block if for let classdecl fun class item item item item item item",
        number,
    )
}

// A letter of a kind: first `p` where it has a position, then one for each field. `n` is a number, `m` a name, `s` a string, `x` a
// bytearray, `f` a float, `i` an int, `u` the sign of a unary, `o` that of a binary; a point is nothing.
fn letter(kind: Kind, i: u32) -> u32
    requires { i < 5 }
    ensures { result ≡ get_or (letters kind) i 256 }
{
    let number = u32::from(kind);
    let at = number * 6 + i;
    byte(
        b"..... p.... p.... p.... pi... pf... ps... px... pn... pn... pm... pm... pn... pnn.. pnm.. pnm.. pun.. ponn. pnnn. pnn.. pn... pnn.. pn... pn... p.... p.... pn... pnnn. pnnnn pnmn. pn... pnmnn pnmmn .nn.. .mn.. .nns. .nnn. .nn.. .nn.. ",
        at,
    )
}

// How a field prints.
pub fn form(kind: Kind, i: u32) -> Form
    requires { i < 4 }
    ensures { result ≡ form_at kind i }
{
    let after = i + 1;
    let b = letter(kind, after);
    match b {
        110 => Form::Plain,
        109 => Form::Named,
        115 => Form::Quoted,
        120 => Form::Array,
        102 => Form::Float,
        105 => Form::Int,
        117 => Form::Prefix,
        111 => Form::Sign,
        _ => Form::Hidden,
    }
}

// A space and the position; nothing of an item.
pub fn position(out: &mut [u8], at: usize, kind: Kind, p: Place) -> usize
    ensures { Writes (positioned kind p) (sheet out.old at) (sheet out.new result) }
{
    let b = letter(kind, 0);
    if b == 112 {
        let next = put(out, at, 32);
        return place(out, next, p.line, p.column);
    }
    at
}
