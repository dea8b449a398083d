// What a prefix sign makes of its operand, which is the last record made.
ghost use Rattle.std.specs.Prelude.{◌≡◌, ◌≤◌, length};
ghost use Rattle.grammar.specs.Expressions.{minus_float, minus_int, minus_p, plus_p, sign_p};
ghost use Rattle.makers.specs.Duties.{Acting, HasRoom, last_in};

use characters::place::Place;
use characters::refusal::{Refusal, Refused};
use grammar::rows::{leaf_row, row};
use records::book::Book;
use records::kind::Kind;

// The kinds of number literals, as a row holds them.
const INT: u32 = Kind::Int as u32;

const FLOAT: u32 = Kind::Float as u32;

// The sign `sign` at `here`, its operand read up to `at`.
pub fn signed(
    book: &mut Book,
    cap: u32,
    sign: u32,
    here: Place,
    at: Place,
) -> Result<Place, Refused>
    requires { HasRoom book.old cap × (1 ≤ book.old.tally.records) }
    ensures lent { book.new.pool.ghost_name ≡ book.old.pool.ghost_name }
    ensures sized { length book.new.pool.now ≡ length book.old.pool.now }
    ensures acts { Acting cap at book.old (sign_p sign here (last_in book.old) at) result book.new }
{
    if sign == 33 {
        let made = row(Kind::Unary, here, 2, book.tally.records, 0);
        return book.make(cap, at, made);
    }
    if sign == 45 {
        return minus(book, cap, at);
    }
    plus(book, cap, at)
}

// A minus: a number literal is made again with its sign turned.
fn minus(book: &mut Book, cap: u32, at: Place) -> Result<Place, Refused>
    requires { HasRoom book.old cap × (1 ≤ book.old.tally.records) }
    ensures lent { book.new.pool.ghost_name ≡ book.old.pool.ghost_name }
    ensures sized { length book.new.pool.now ≡ length book.old.pool.now }
    ensures acts { Acting cap at book.old (minus_p (last_in book.old) at) result book.new }
{
    let node = book.tally.records;
    let kind = book.kind_of(node);
    match kind {
        INT => {
            let position = book.position_of(node);
            let value = minus_int(book.value_of(node));
            let made = leaf_row(Kind::Int, position, value);
            book.make(cap, at, made)
        }
        FLOAT => {
            let position = book.position_of(node);
            let value = minus_float(book.value_of(node));
            let made = leaf_row(Kind::Float, position, value);
            book.make(cap, at, made)
        }
        _ => book.make_like(cap, at, Kind::Unary, node, 1, node, 0),
    }
}

// A plus: a number literal stays as it is.
fn plus(book: &Book, cap: u32, at: Place) -> Result<Place, Refused>
    requires { HasRoom book.now cap × (1 ≤ book.now.tally.records) }
    ensures { Acting cap at book.now (plus_p (last_in book.now) at) result book.now }
{
    let kind = book.kind_of(book.tally.records);
    match kind {
        INT => Ok(at),
        FLOAT => Ok(at),
        _ => Err(Refused {
            refusal: Refusal::UnaryPlus,
            at,
        }),
    }
}

// An int negated, in two's complement.
fn minus_int(value: u64) -> u64
    ensures { result ≡ minus_int value }
{
    if value == 0 {
        return 0;
    }
    let less = value - 1;
    18446744073709551615 - less
}

// A float with its minus mark turned.
fn minus_float(value: u64) -> u64
    ensures { result ≡ minus_float value }
{
    (value % 8589934592 + 4294967296) % 8589934592
}
