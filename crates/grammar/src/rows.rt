// The rows that the readers make.
ghost use Rattle.std.specs.Prelude.{◌≡◌, ◌≤◌};
ghost use Rattle.reading.specs.Entry.{nowhere};
ghost use Rattle.grammar.specs.Leaves.{leaf_row, row_of};
ghost use Rattle.grammar.specs.Expressions.{pair_row};
ghost use Rattle.grammar.specs.Functions.{fun_row, name_word};
ghost use Rattle.grammar.specs.Classes.{class_row};

use characters::place::{Place, Span};
use records::ids::{ClassId, FunId};
use records::kind::Kind;
use records::row::Row;
use records::words::{high, low, pack};

// A name from one place to another, as a row holds it.
pub fn name_word(here: Place, next: Place) -> u32
    requires { (here.offset ≤ 65535) × (next.offset ≤ 65535) }
    ensures { result ≡ name_word here next }
{
    let span = Span {
        from: here.offset,
        to: next.offset,
    };
    pack(span)
}

// A row with a kind, a position and up to three fields.
pub fn row(kind: Kind, position: Place, a: u32, b: u32, c: u32) -> Row
    ensures { result ≡ row_of kind position a b c }
{
    Row {
        kind,
        position,
        a,
        b,
        c,
        d: 0,
    }
}

// An item has no position: an element and the item before it.
pub fn item(element: u32, last: u32) -> Row
    ensures { result ≡ row_of Kind.Item nowhere element last 0 }
{
    let nowhere = Place {
        offset: 0,
        line: 0,
        column: 0,
    };
    row(Kind::Item, nowhere, element, last, 0)
}

// A dictionary's item: its value, the item before it and its key.
pub fn pair_row(element: u32, last: u32, key: Span) -> Row
    requires { (key.from ≤ 65535) × (key.to ≤ 65535) }
    ensures { result ≡ pair_row element last key }
{
    let nowhere = Place {
        offset: 0,
        line: 0,
        column: 0,
    };
    let word = pack(key);
    row(Kind::Pair, nowhere, element, last, word)
}

// A leaf's row: its value in two words.
pub fn leaf_row(kind: Kind, position: Place, value: u64) -> Row
    ensures { result ≡ leaf_row kind position value }
{
    let a = low(value);
    let b = high(value);
    Row {
        kind,
        position,
        a,
        b,
        c: 0,
        d: 0,
    }
}

// A function's row: its id, its name or 0, its last parameter and its body.
pub fn fun_row(position: Place, id: FunId, name: u32, params: u32, body: u32) -> Row
    ensures { result ≡ fun_row position id.0 name params body }
{
    Row {
        kind: Kind::Fun,
        position,
        a: u32::from(id),
        b: name,
        c: params,
        d: body,
    }
}

// A class's row: its id, its name, its parent's name or 0, and its last method.
pub fn class_row(position: Place, id: ClassId, name: u32, parent: u32, methods: u32) -> Row
    ensures { result ≡ class_row position id.0 name parent methods }
{
    Row {
        kind: Kind::Class,
        position,
        a: u32::from(id),
        b: name,
        c: parent,
        d: methods,
    }
}
