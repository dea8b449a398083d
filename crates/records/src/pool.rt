// The pool: rows of eight words, one after the other, in a buffer that the caller lends.
ghost use Rattle.std.specs.Prelude.{◌≡◌, ◌+◌, ◌*◌, ◌≤◌, length};
ghost use Rattle.reading.specs.Outs.{out_at};
ghost use Rattle.reading.specs.Says.{Makes};
ghost use Rattle.records.specs.Kinds.{number_of};
ghost use Rattle.records.specs.Rows.{record_of, layout, row_at, cap_of, Lent, Lays};

use crate::kind::Kind;
use crate::row::Row;
use characters::place::Place;
use characters::refusal::{Refusal, Refused};
use reading::node::Node;
use reading::tally::Tally;

// "The record limit is the number of whole records in the pool, at most 65,535."
pub fn capacity(words: usize) -> u32
    ensures { result ≡ cap_of words }
{
    let rows = words / 8;
    if rows < 65535 { rows as u32 } else { 65535 }
}

// Writes a row after so many others, and answers its kind's number. Nothing else writes into a pool.
pub fn lay(pool: &mut [u32], made: u32, row: Row) -> u32
    requires { made * 8 + 8 ≤ length pool.old }
    ensures { Lays made row result pool.old pool.new }
{
    let kind = row.kind;
    let number = u32::from(kind);
    let position = row.position;
    let base = (made as usize) * 8;
    pool[base] = number;
    pool[base + 1] = position.offset;
    pool[base + 2] = position.line;
    pool[base + 3] = position.column;
    pool[base + 4] = row.a;
    pool[base + 5] = row.b;
    pool[base + 6] = row.c;
    pool[base + 7] = row.d;
    number
}

// The next record, when `at` is reached; or 6 there, where the limit has no room for it.
pub fn put(
    pool: &mut [u32],
    cap: u32,
    tally: &mut Tally,
    at: Place,
    row: Row,
    value: u64,
) -> Result<Node, Refused>
    requires { Lent pool.old cap }
    ensures { Makes layout cap tally.old at (record_of row) value (out_at at result tally.new) pool.old pool.new }
{
    let made = tally.records;
    if made < cap {
        let kind = lay(pool, made, row);
        let number = made + 1;
        tally.records = number;
        return Ok(Node {
            number,
            kind,
            position: row.position,
            value,
        });
    }
    Err(Refused {
        refusal: Refusal::PoolFull,
        at,
    })
}

// The row of the record with this number; nothing where the pool has no such row, or where its kind is none.
pub fn row_at(pool: &[u32], number: u32) -> Option<Row>
    ensures { result ≡ row_at pool.now number }
{
    if number == 0 {
        return None;
    }
    let end = (number as usize) * 8;
    if pool.len() < end {
        return None;
    }
    let base = end - 8;
    let kind = Kind::try_from(pool[base]).ok()?;
    let position = Place {
        offset: pool[base + 1],
        line: pool[base + 2],
        column: pool[base + 3],
    };
    Some(Row {
        kind,
        position,
        a: pool[base + 4],
        b: pool[base + 5],
        c: pool[base + 6],
        d: pool[base + 7],
    })
}
