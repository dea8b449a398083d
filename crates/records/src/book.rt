// The book: a lent pool, and what was counted so far. A reader makes its records here.
ghost use Rattle.std.specs.Prelude.{◌≡◌, ◌≤◌, ◌<◌, length};
ghost use Rattle.reading.specs.Gots.{got_of};
ghost use Rattle.records.specs.Words.{whole_of};
ghost use Rattle.records.specs.Rows.{Lent};
ghost use Rattle.records.specs.Nodes.{Stored, word_at, kind_at, place_at, held_at, before_at, MakesRow, row_like};

use crate::kind::Kind;
use crate::nodes::{before_of, held_of, kind_of, position_of, value_of};
use crate::pool::lay;
use crate::row::Row;
use characters::place::Place;
use characters::refusal::{Refusal, Refused};
use reading::tally::Tally;

// The records that were made stand in the pool; the tally says how many. Read the pool by the methods below: where `book.pool` itself is
// lent as `&[u32]` through a `&mut Book`, a proof no longer knows what stands in it; `&mut *book.pool` keeps that.
#[derive(Drop)]
pub struct Book<'a> {
    pub pool: &'a mut [u32],
    pub tally: Tally,
}

impl<'a> Book<'a> {
    // The next record, when `at` is reached; or 6 there, where the limit has no room for it.
    pub fn make(&mut self, cap: u32, at: Place, row: Row) -> Result<Place, Refused>
        requires { Lent self.old.pool.now cap }
        ensures lent { self.new.pool.ghost_name ≡ self.old.pool.ghost_name }
        ensures sized { length self.new.pool.now ≡ length self.old.pool.now }
        ensures makes { MakesRow cap self.old.tally at row (got_of result self.new.tally) self.old.pool.now self.new.pool.now }
    {
        let made = self.tally.records;
        if made < cap {
            lay(self.pool, made, row);
            self.tally.records = made + 1;
            return Ok(at);
        }
        Err(Refused {
            refusal: Refusal::PoolFull,
            at,
        })
    }

    // The same at the position of the record `like`.
    pub fn make_like(
        &mut self,
        cap: u32,
        at: Place,
        kind: Kind,
        like: u32,
        a: u32,
        b: u32,
        c: u32,
    ) -> Result<Place, Refused>
        requires { (Lent self.old.pool.now cap) × (1 ≤ like) × (like ≤ cap) }
        ensures lent { self.new.pool.ghost_name ≡ self.old.pool.ghost_name }
        ensures sized { length self.new.pool.now ≡ length self.old.pool.now }
        ensures makes { MakesRow cap self.old.tally at (row_like self.old.pool.now kind like a b c) (got_of result self.new.tally) self.old.pool.now self.new.pool.now }
    {
        let position = self.position_of(like);
        let row = Row {
            kind,
            position,
            a,
            b,
            c,
            d: 0,
        };
        self.make(cap, at, row)
    }

    // The words of the pool.
    pub fn words(&self) -> &[u32]
        ensures { result.now ≡ self.now.pool.now }
    {
        self.pool
    }

    // The number of a record's kind.
    pub fn kind_of(&self, number: u32) -> u32
        requires { Stored self.now.pool.now number }
        ensures { result ≡ kind_at self.now.pool.now number }
    {
        kind_of(self.pool, number)
    }

    // Its position.
    pub fn position_of(&self, number: u32) -> Place
        requires { Stored self.now.pool.now number }
        ensures { result ≡ place_at self.now.pool.now number }
    {
        position_of(self.pool, number)
    }

    // What it holds in its field with this index, from 0 on.
    pub fn held_of(&self, number: u32, field: usize) -> u32
        requires { (Stored self.now.pool.now number) × (field < 4) }
        ensures { result ≡ held_at self.now.pool.now number field }
    {
        held_of(self.pool, number, field)
    }

    // Of an item the one before it; 0 is none.
    pub fn before_of(&self, item: u32) -> u32
        requires { Stored self.now.pool.now item }
        ensures { result ≡ before_at self.now.pool.now item }
    {
        before_of(self.pool, item)
    }

    // The value in its first two fields, as a leaf has it.
    pub fn value_of(&self, number: u32) -> u64
        requires { Stored self.now.pool.now number }
        ensures { result ≡ whole_of (word_at self.now.pool.now number 4) (word_at self.now.pool.now number 5) }
    {
        value_of(self.pool, number)
    }
}
