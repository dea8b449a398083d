// The records that end a rule, made of those before them.
ghost use Rattle.std.specs.Prelude.{◌≡◌, ◌≤◌, length};
ghost use Rattle.characters.specs.Text.{on_by};
ghost use Rattle.reading.specs.Process.{make, plain};
ghost use Rattle.records.specs.Rows.{record_of};
ghost use Rattle.records.specs.Nodes.{node_at};
ghost use Rattle.grammar.specs.Expressions.{item_row, stated_row};
ghost use Rattle.grammar.specs.Functions.{fun_p};
ghost use Rattle.grammar.specs.Statements.{combine_p, for_end_p, increment_p, jump_p};
ghost use Rattle.grammar.specs.Reads.{Ready};
ghost use Rattle.makers.specs.Duties.{Acting, ActingAlone, Begun, HasRoom, last_in, target_kind};

use characters::place::Place;
use characters::refusal::{Refusal, Refused};
use characters::tokens::need;
use grammar::rows::{fun_row, item, row};
use records::book::Book;
use records::ids::FunId;
use records::kind::Kind;
use records::row::Row;

// The item of an expression in a list, which is the last record, after the item `last`.
pub fn held(book: &mut Book, cap: u32, last: u32, at: Place) -> Result<Place, Refused>
    requires { HasRoom book.old cap }
    ensures lent { book.new.pool.ghost_name ≡ book.old.pool.ghost_name }
    ensures sized { length book.new.pool.now ≡ length book.old.pool.now }
    ensures acts { Acting cap at book.old (make at (record_of (item_row (last_in book.old) last)) 0) result book.new }
{
    let made = item(book.tally.records, last);
    book.make(cap, at, made)
}

// The item of a statement in a block, which is the last record, after the item `last`.
pub fn stated(book: &mut Book, cap: u32, last: u32, at: Place) -> Result<Place, Refused>
    requires { HasRoom book.old cap }
    ensures lent { book.new.pool.ghost_name ≡ book.old.pool.ghost_name }
    ensures sized { length book.new.pool.now ≡ length book.old.pool.now }
    ensures acts { Acting cap at book.old (make at (record_of (stated_row (last_in book.old) last)) 0) result book.new }
{
    let nowhere = Place {
        offset: 0,
        line: 0,
        column: 0,
    };
    let made = row(Kind::Stated, nowhere, book.tally.records, last, 0);
    book.make(cap, at, made)
}

// A function whose parameters are read and whose body is the last record: its id, then its record.
pub fn make_fun(
    book: &mut Book,
    cap: u32,
    from: Place,
    name: u32,
    params: u32,
    at: Place,
) -> Result<Place, Refused>
    requires { HasRoom book.old cap }
    ensures lent { book.new.pool.ghost_name ≡ book.old.pool.ghost_name }
    ensures sized { length book.new.pool.now ≡ length book.old.pool.now }
    ensures acts { Acting cap at book.old (fun_p from name (plain params at) (last_in book.old) at) result book.new }
{
    let body = book.tally.records;
    let id = FunId::next(book.tally);
    book.tally = book.tally.numbered();
    let made = fun_row(from, id, name, params, body);
    book.make(cap, at, made)
}

// A loop whose body is the last record. Where the test is left out, `true` is made first.
pub fn make_for(
    book: &mut Book,
    cap: u32,
    from: Place,
    first: u32,
    test: u32,
    third: u32,
    at: Place,
) -> Result<Place, Refused>
    requires { HasRoom book.old cap }
    ensures lent { book.new.pool.ghost_name ≡ book.old.pool.ghost_name }
    ensures sized { length book.new.pool.now ≡ length book.old.pool.now }
    ensures acts { Acting cap at book.old (for_end_p from (plain first at) (plain test at) (plain third at) (last_in book.old) at) result book.new }
{
    let body = book.tally.records;
    if test != 0 {
        let made = Row {
            kind: Kind::For,
            position: from,
            a: first,
            b: test,
            c: third,
            d: body,
        };
        return book.make(cap, at, made);
    }
    let truth = row(Kind::True, from, 0, 0, 0);
    let q = book.make(cap, at, truth)?;
    let implied = book.tally.records;
    let made = Row {
        kind: Kind::For,
        position: from,
        a: first,
        b: implied,
        c: third,
        d: body,
    };
    book.make(cap, q, made)
}

// The target `target` with an operator and the value that is the last record, and the assignment of that.
pub fn combine(
    book: &mut Book,
    cap: u32,
    from: Place,
    op: u32,
    target: u32,
    at: Place,
) -> Result<Place, Refused>
    requires { HasRoom book.old cap × (1 ≤ target) × (target ≤ book.old.tally.records) }
    ensures lent { book.new.pool.ghost_name ≡ book.old.pool.ghost_name }
    ensures sized { length book.new.pool.now ≡ length book.old.pool.now }
    ensures acts { Acting cap at book.old (combine_p from op (node_at book.old.pool.now target) (last_in book.old) at) result book.new }
{
    let value = book.tally.records;
    let q = book.make_like(cap, at, Kind::Binary, target, op, target, value)?;
    let sum = book.tally.records;
    let made = row(Kind::Assign, from, target, sum, 0);
    book.make(cap, q, made)
}

// "Targets are names, members, indexes."
pub fn is_target(kind: u32) -> bool
    ensures { result ≡ target_kind kind }
{
    kind == Kind::Name as u32 || kind == Kind::Member as u32 || kind == Kind::Index as u32
}

// break: 'break' ';'    continue: 'continue' ';'
// After the keyword, which is one record of this kind.
pub fn jump(
    text: &[u8],
    book: &mut Book,
    cap: u32,
    kind: Kind,
    from: Place,
    at: Place,
) -> Result<Place, Refused>
    requires { Ready text.now book.old.pool.now cap at book.old.tally }
    ensures lent { book.new.pool.ghost_name ≡ book.old.pool.ghost_name }
    ensures acts { ActingAlone text.now cap at book.old (jump_p text.now kind from at) result book.new }
{
    let end = need(text, at, b';')?;
    let made = row(kind, from, 0, 0, 0);
    book.make(cap, end.next, made)
}

// The step of `++` or `--`, by its operator; its target is the last record, read up to `at`.
pub fn increment(
    text: &[u8],
    book: &mut Book,
    cap: u32,
    end: u8,
    from: Place,
    op: u32,
    at: Place,
) -> Result<Place, Refused>
    requires { Begun text.now book.old.pool.now cap at book.old.tally }
    ensures lent { book.new.pool.ghost_name ≡ book.old.pool.ghost_name }
    ensures acts { ActingAlone text.now cap (on_by 1 at) book.old (increment_p text.now end from op (last_in book.old) at) result book.new }
{
    let target = book.tally.records;
    let kind = book.kind_of(target);
    if !is_target(kind) {
        let position = book.position_of(target);
        return Err(Refused {
            refusal: Refusal::InvalidTarget,
            at: position,
        });
    }
    let last = need(text, at, end)?;
    let q = book.make_like(cap, last.next, Kind::Int, target, 1, 0, 0)?;
    combine(book, cap, from, op, target, q)
}
