// The unit: its items, and what ends it.
ghost use Rattle.std.specs.Prelude.{◌≡◌, ◌≤◌, ◌<◌, length};
ghost use Rattle.records.specs.Kinds.{number_of};
ghost use Rattle.records.specs.Nodes.{Stored, kind_at, node_at};
ghost use Rattle.grammar.specs.Expressions.{turns};
ghost use Rattle.grammar.specs.Units.{items_p, nothing, unit_end_p, unit_p};
ghost use Rattle.makers.specs.Duties.{Acting, HasRoom};
ghost use Rattle.readers.specs.Reading.{MayGoOn, MayRead, Reading};
ghost use Rattle.unit.specs.Items.{IsDeclared, MakingItem, ReadingClass, ReadingStatement, role_in};

use crate::classes::{class, item_row};
use characters::place::{Place, Span};
use characters::refusal::{Refusal, Refused};
use characters::tokens::{Look, keyword};
use grammar::heads::{ItemHead, item_of};
use grammar::rows::row;
use makers::endings::{make_fun, stated};
use makers::names::{Naming, compare_name, role_of};
use readers::cycle::Reader;
use records::book::Book;
use records::kind::Kind;
use records::words::unpack;

// What a statement of the unit declares: a function with this name, a constant, or nothing that is counted or compared.
#[derive(Clone, Copy, Debug, PartialEq, Eq)]
pub enum Role {
    Function { name: Span },
    Constant,
    Other,
}

// What the statement with this number declares.
fn role_at(book: &Book, number: u32) -> Role
    requires { Stored book.now.pool.now number }
    ensures { result ≡ role_in (node_at book.now.pool.now number) }
{
    let kind = book.kind_of(number);
    if kind != Kind::Let as u32 {
        return Role::Other;
    }
    let word = book.held_of(number, 1);
    let role = role_of(book.words(), number);
    match role {
        0 => Role::Constant,
        2 => {
            let name = unpack(word);
            Role::Function { name }
        }
        _ => Role::Other,
    }
}

// The item of the statement that is the last record. "Each unit-level `let` without `var`, unless its value is a function, gets the next
// global number from 0"; a function's name is compared, "30 the .. function statement's start". `globals` is the next global number.
fn statement_end(
    reader: &Reader,
    book: &mut Book,
    last: u32,
    globals: &mut u32,
    at: Place,
) -> Result<Place, Refused>
    requires { MayGoOn reader.now book.old at × IsDeclared book.old last × (globals.old ≤ book.old.tally.records) × (kind_at book.old.pool.now book.old.tally.records < number_of Kind.ClassDecl) }
    ensures lent { book.new.pool.ghost_name ≡ book.old.pool.ghost_name }
    ensures sized { length book.new.pool.now ≡ length book.old.pool.now }
    ensures makes { MakingItem reader.now book.old last globals.old at result globals.new book.new }
{
    let number = book.tally.records;
    match role_at(book, number) {
        Role::Constant => {
            let item = item_row(Kind::Global, number, last, *globals);
            *globals += 1;
            book.make(reader.cap, at, item)
        }
        Role::Function { name } => {
            let from = book.position_of(number);
            compare_name(
                reader.text,
                book,
                reader.comps,
                at,
                from,
                name,
                last,
                Naming::Functions,
            )?;
            stated(book, reader.cap, last, at)
        }
        Role::Other => stated(book, reader.cap, last, at),
    }
}

// item: statement
fn statement_item(
    reader: &Reader,
    book: &mut Book,
    left: u32,
    last: u32,
    globals: &mut u32,
    at: Place,
) -> Result<Place, Refused>
    requires { MayRead reader.now book.old at × IsDeclared book.old last × (globals.old ≤ book.old.tally.records) }
    ensures lent { book.new.pool.ghost_name ≡ book.old.pool.ghost_name }
    ensures sized { length book.new.pool.now ≡ length book.old.pool.now }
    ensures reads { ReadingStatement reader.now book.old left last globals.old at result globals.new book.new }
{
    let q = reader.statement(book, left, at)?;
    statement_end(reader, book, last, globals, q)
}

// item: class
// After `class`, which stands at `from`: the class, its declaration and its item.
fn class_item(
    reader: &Reader,
    book: &mut Book,
    left: u32,
    from: Place,
    last: u32,
    at: Place,
) -> Result<Place, Refused>
    requires { MayRead reader.now book.old at × IsDeclared book.old last }
    ensures lent { book.new.pool.ghost_name ≡ book.old.pool.ghost_name }
    ensures sized { length book.new.pool.now ≡ length book.old.pool.now }
    ensures reads { ReadingClass reader.now book.old left last from at result book.new }
{
    let q = class(reader, book, left, from, last, at)?;
    let declared = row(Kind::ClassDecl, from, book.tally.records, 0, 0);
    let r = book.make(reader.cap, q, declared)?;
    stated(book, reader.cap, last, r)
}

// "The unit ends with its block and its function."
fn unit_end(book: &mut Book, cap: u32, from: Place, last: u32, at: Place) -> Result<Place, Refused>
    requires { HasRoom book.old cap }
    ensures lent { book.new.pool.ghost_name ≡ book.old.pool.ghost_name }
    ensures sized { length book.new.pool.now ≡ length book.old.pool.now }
    ensures acts { Acting cap at book.old (unit_end_p from last at) result book.new }
{
    let block = row(Kind::Block, from, last, 0, 0);
    let q = book.make(cap, at, block)?;
    make_fun(book, cap, from, 0, 0, q)
}

// { item }
// The items of the unit that stands at `at`.
fn items(reader: &Reader, book: &mut Book, left: u32, at: Place) -> Result<Place, Refused>
    requires { MayRead reader.now book.old at }
    ensures lent { book.new.pool.ghost_name ≡ book.old.pool.ghost_name }
    ensures reads { Reading reader.now book.old left at (items_p (turns reader.now.text.now) reader.now.text.now at nothing 0 at) result book.new }
{
    let mut here = at;
    let mut last: u32 = 0;
    let mut globals: u32 = 0;
    loop {
        match item_of(reader.text, here)? {
            ItemHead::End { here: q } => return unit_end(book, reader.cap, at, last, q),
            ItemHead::Class { here: q, next } => {
                here = class_item(reader, book, left, q, last, next)?;
                last = book.tally.records;
            }
            ItemHead::Statement { here: q } => {
                here = statement_item(reader, book, left, last, &mut globals, q)?;
                last = book.tally.records;
            }
        }
    }
}

// unit: { item }
// "First token of the unit is the keyword `from`": 4 at its start. The unit's position is past the blanks.
pub fn unit(reader: &Reader, book: &mut Book, left: u32, at: Place) -> Result<Place, Refused>
    requires { MayRead reader.now book.old at }
    ensures lent { book.new.pool.ghost_name ≡ book.old.pool.ghost_name }
    ensures reads { Reading reader.now book.old left at (unit_p reader.now.text.now at) result book.new }
{
    match keyword(reader.text, at, b"from")? {
        Look::Found { here, next: _ } => Err(Refused {
            refusal: Refusal::LeadingFrom,
            at: here,
        }),
        Look::Missing { here } => items(reader, book, left, here),
    }
}
