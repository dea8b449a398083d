// The lines of the listing.
ghost use Rattle.listing.specs.Sheets.{Writes, sheet};
ghost use Rattle.listing.specs.Listing.{counts, fields, last_line, line_at, line_of};

use crate::fields::{field, plain};
use crate::kinds::{form, position, title};
use crate::numbers::{decimal, place};
use crate::sheet::{copy, put};
use reading::answer::Answer;
use records::pool::row_at;
use records::row::Row;

// The four fields of a record.
fn fields(out: &mut [u8], at: usize, text: &[u8], row: Row) -> usize
    ensures { Writes (fields text.now row) (sheet out.old at) (sheet out.new result) }
{
    let kind = row.kind;
    let first = field(out, at, text, form(kind, 0), row.a, row.b);
    let second = field(out, first, text, form(kind, 1), row.b, row.c);
    let third = field(out, second, text, form(kind, 2), row.c, row.d);
    field(out, third, text, form(kind, 3), row.d, 0)
}

// "Each line: record number, kind, position (items none), fields."
fn line_of(out: &mut [u8], at: usize, text: &[u8], number: u32, row: Row) -> usize
    ensures { Writes (line_of text.now number row) (sheet out.old at) (sheet out.new result) }
{
    let kind = row.kind;
    let p = row.position;
    let numbered = decimal(out, at, number as u64);
    let named = title(out, numbered, kind);
    let placed = position(out, named, kind, p);
    let filled = fields(out, placed, text, row);
    put(out, filled, 10)
}

// The line of the record with this number; a `?` stands for one that the pool hasn't.
pub fn line(out: &mut [u8], at: usize, text: &[u8], pool: &[u32], number: u32) -> usize
    ensures { Writes (line_at text.now pool.now number) (sheet out.old at) (sheet out.new result) }
{
    match row_at(pool, number) {
        Some(row) => line_of(out, at, text, number, row),
        None => {
            let next = decimal(out, at, number as u64);
            copy(out, next, b" ?\n")
        }
    }
}

// Both counts, and the line end.
fn counts(out: &mut [u8], at: usize, answer: Answer) -> usize
    ensures { Writes (counts answer) (sheet out.old at) (sheet out.new result) }
{
    let records = decimal(out, at, answer.records as u64);
    let next = plain(out, records, answer.comparisons);
    put(out, next, 10)
}

// "Last line: `ok`, records, comparisons; or `refused`, number, place, records, comparisons."
pub fn last(out: &mut [u8], at: usize, answer: Answer) -> usize
    ensures { Writes (last_line answer) (sheet out.old at) (sheet out.new result) }
{
    if answer.number == 0 {
        let next = copy(out, at, b"ok ");
        return counts(out, next, answer);
    }
    let first = copy(out, at, b"refused ");
    let number = decimal(out, first, answer.number as u64);
    let before = put(out, number, 32);
    let placed = place(out, before, answer.line, answer.column);
    let next = put(out, placed, 32);
    counts(out, next, answer)
}
