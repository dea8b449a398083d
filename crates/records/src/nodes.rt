// Nodes: what a record's node says is read in its row again.
ghost use Rattle.std.specs.Prelude.{◌≡◌, ◌<◌};
ghost use Rattle.records.specs.Words.{whole_of};
ghost use Rattle.records.specs.Nodes.{Stored, word_at, kind_at, place_at, held_at, before_at};

use crate::words::whole;
use characters::place::Place;

// A word of a record's row.
pub fn word_of(pool: &[u32], number: u32, i: usize) -> u32
    requires { (Stored pool.now number) × (i < 8) }
    ensures { result ≡ word_at pool.now number i }
{
    let base = (number as usize) * 8 - 8;
    pool[base + i]
}

// The number of its kind.
pub fn kind_of(pool: &[u32], number: u32) -> u32
    requires { Stored pool.now number }
    ensures { result ≡ kind_at pool.now number }
{
    word_of(pool, number, 0)
}

// Its position.
pub fn position_of(pool: &[u32], number: u32) -> Place
    requires { Stored pool.now number }
    ensures { result ≡ place_at pool.now number }
{
    let offset = word_of(pool, number, 1);
    let line = word_of(pool, number, 2);
    let column = word_of(pool, number, 3);
    Place {
        offset,
        line,
        column,
    }
}

// What it holds in its field with this index, from 0 on.
pub fn held_of(pool: &[u32], number: u32, field: usize) -> u32
    requires { (Stored pool.now number) × (field < 4) }
    ensures { result ≡ held_at pool.now number field }
{
    let i = field + 4;
    word_of(pool, number, i)
}

// Of an item the one before it; 0 is none.
pub fn before_of(pool: &[u32], item: u32) -> u32
    requires { Stored pool.now item }
    ensures { result ≡ before_at pool.now item }
{
    held_of(pool, item, 1)
}

// The value in its first two fields, as a leaf has it.
pub fn value_of(pool: &[u32], number: u32) -> u64
    requires { Stored pool.now number }
    ensures { result ≡ whole_of (word_at pool.now number 4) (word_at pool.now number 5) }
{
    let low = word_of(pool, number, 4);
    let high = word_of(pool, number, 5);
    whole(low, high)
}
