// THE ENTRIES: what a caller is answered about a text. No caller owes anything: every text, pool and limit has its answer.
ghost use Rattle.std.specs.Prelude.{◌≡◌, [], ◌≤◌, length};
ghost use Rattle.reading.specs.Answers.{answer_from};
ghost use Rattle.reading.specs.Events.{start};
ghost use Rattle.reading.specs.Gots as gots;
ghost use Rattle.records.specs.Nodes.{out_of};
ghost use Rattle.grammar.specs.Units.{start_of};
ghost use Rattle.unit.specs.Entries.{Enters, EntersShort};

use crate::items::unit;
use characters::blanks::file_start;
use characters::place::Place;
use characters::refusal::{Refusal, Refused};
use characters::utf8::{prefix_place, well_formed};
use readers::cycle::Reader;
use reading::answer::Answer;
use reading::tally::Tally;
use records::book::Book;
use records::pool::capacity;

// What the caller is told: nothing of the node, so of no pool.
fn told(tally: Tally, read: Result<Place, Refused>) -> Answer
    ensures { result ≡ answer_from (out_of [] (gots.got_of read tally)) }
{
    match read {
        Ok(at) => Answer {
            number: 0,
            line: at.line,
            column: at.column,
            records: tally.records,
            comparisons: tally.comparisons,
        },
        Err(refused) => {
            let number = refused.refusal.number();
            Answer {
                number,
                line: refused.at.line,
                column: refused.at.column,
                records: tally.records,
                comparisons: tally.comparisons,
            }
        }
    }
}

// "1, 2, 3 are checked .. before reading, with both counts 0."
fn refused(refusal: Refusal, at: Place) -> Answer
    ensures { result ≡ answer_from (out_of [] (gots.Refused refusal at start)) }
{
    told(Tally::start(), Err(Refused { refusal, at }))
}

// "String form, or file form, which first skips a line opening with `#!`."
fn start_of(text: &[u8], file: bool) -> Place
    requires { length text.now ≤ 65535 }
    ensures { result ≡ start_of file text.now }
{
    if file {
        file_start(text)
    } else {
        Place::start()
    }
}

// THE FULL ENTRY: text, pool, nesting limit, comparison limit, and true for the file form.
pub fn read(text: &[u8], pool: &mut [u32], nest: u32, comps: u32, file: bool) -> Answer
    ensures { Enters text.now nest comps file result pool.old pool.new }
{
    let nowhere = Place {
        offset: 0,
        line: 0,
        column: 0,
    };
    if 65535 < text.len() {
        return refused(Refusal::TooLong, nowhere);
    }
    if nest < 1 || 256 < nest {
        return refused(Refusal::BadNesting, nowhere);
    }
    if !well_formed(text) {
        let at = prefix_place(text);
        return refused(Refusal::NotUtf8, at);
    }
    let cap = capacity(pool.len());
    let at = start_of(text, file);
    let reader = Reader { text, cap, comps };
    let mut book = Book {
        pool,
        tally: Tally::start(),
    };
    let read = unit(&reader, &mut book, nest, at);
    told(book.tally, read)
}

// THE SHORT ENTRY: "string form, nesting 64 and 100,000 comparisons".
pub fn read_short(text: &[u8], pool: &mut [u32]) -> Answer
    ensures { EntersShort text.now result pool.old pool.new }
{
    read(text, pool, 64, 100000, false)
}
