// Plain operands: a name, a number or a string with nothing unusual in it, read without a reader of its own; and what surely follows one.
ghost use Rattle.std.specs.Prelude.{◌≡◌, true, ◌+◌, ◌≤◌, length};
ghost use Rattle.characters.specs.Text.{Stands, byte_at};
ghost use Rattle.characters.specs.Counts.{end_of};
ghost use Rattle.characters.specs.Names.{is_digit, is_letter};
ghost use Rattle.literals.specs.Strings.{is_quote};
ghost use Rattle.records.specs.Rows.{Lent};
ghost use Rattle.makers.specs.Plain.{Over, Plain, Rests, near_of};

use characters::names::{name_end, word};
use characters::place::{Place, Span, byte};
use characters::reserved::Word;
use grammar::rows::{leaf_row, row};
use literals::plain::{digits_end, float_end, int_end, plain_int, plain_string_end};
use records::kind::Kind;
use records::pool::lay;
use records::words::pack;

// Past one space, where one stands here.
pub fn near(text: &[u8], at: Place) -> Place
    requires { Stands text.now at }
    ensures { result ≡ near_of text.now at }
{
    let b = byte(text, at.offset);
    if b == 32 {
        return at.on(1);
    }
    at
}

// Writes the record of the plain operand at `at`, after `made` others, and answers how many bytes it has: a name that is no reserved word,
// `true`, `false`, `nil`, a decimal integer of at most 18 digits, a decimal fraction, a string without escapes. 0 where none stands there or no
// room is left; then nothing is written, and the readers decide.
pub fn plain(text: &[u8], pool: &mut [u32], cap: u32, at: Place, made: u32) -> u32
    requires { (length text.now ≤ 65535) × Stands text.now at × Lent pool.old cap × (cap ≤ 65535) }
    ensures { Plain text.now cap at made result pool.old pool.new }
{
    if cap <= made {
        return 0;
    }
    let b = byte(text, at.offset);
    match b {
        34 | 39 => plain_string(text, pool, at, made),
        48..=57 => plain_number(text, pool, at, made),
        65..=90 | 95 | 97..=122 => plain_name(text, pool, at, made),
        _ => 0,
    }
}

// A name that is no reserved word, or `true`, `false`, `nil`: the first three of those.
fn plain_name(text: &[u8], pool: &mut [u32], at: Place, made: u32) -> u32
    requires { (length text.now ≤ 65535) × Stands text.now at × Lent pool.old (made + 1) × (is_letter (byte_at text.now at.offset) ≡ true) }
    ensures { Plain text.now (made + 1) at made result pool.old pool.new }
{
    let from = at.offset;
    let to = name_end(text, from);
    let bytes = to - from;
    match word(text, from, to) {
        None => {
            let span = pack(Span { from, to });
            let made_row = row(Kind::Name, at, span, 0, 0);
            lay(pool, made, made_row);
            bytes
        }
        Some(Word::True) => {
            let made_row = row(Kind::True, at, 0, 0, 0);
            lay(pool, made, made_row);
            bytes
        }
        Some(Word::False) => {
            let made_row = row(Kind::False, at, 0, 0, 0);
            lay(pool, made, made_row);
            bytes
        }
        Some(Word::Nil) => {
            let made_row = row(Kind::Nil, at, 0, 0, 0);
            lay(pool, made, made_row);
            bytes
        }
        Some(_) => 0,
    }
}

// A decimal integer of at most 18 digits, or a fraction.
fn plain_number(text: &[u8], pool: &mut [u32], at: Place, made: u32) -> u32
    requires { (length text.now ≤ 65535) × Stands text.now at × Lent pool.old (made + 1) }
    ensures { Plain text.now (made + 1) at made result pool.old pool.new }
{
    let from = at.offset;
    let end = digits_end(text, from);
    let Some(to) = int_end(text, from, end) else {
        return plain_fraction(text, pool, at, made, end);
    };
    let value = plain_int(text, from, to);
    let made_row = leaf_row(Kind::Int, at, value);
    lay(pool, made, made_row);
    to - from
}

// A decimal fraction: its first digits end at `dot`.
fn plain_fraction(text: &[u8], pool: &mut [u32], at: Place, made: u32, dot: u32) -> u32
    requires { (length text.now ≤ 65535) × Stands text.now at × Lent pool.old (made + 1) × (dot ≡ end_of is_digit text.now at.offset) }
    ensures { Plain text.now (made + 1) at made result pool.old pool.new }
{
    let from = at.offset;
    let Some(to) = float_end(text, from, dot) else {
        return 0;
    };
    let span = pack(Span { from, to });
    let made_row = row(Kind::Float, at, span, 0, 0);
    lay(pool, made, made_row);
    to - from
}

// A string of printable ASCII without escapes.
fn plain_string(text: &[u8], pool: &mut [u32], at: Place, made: u32) -> u32
    requires { (length text.now ≤ 65535) × Stands text.now at × Lent pool.old (made + 1) × (is_quote (byte_at text.now at.offset) ≡ true) }
    ensures { Plain text.now (made + 1) at made result pool.old pool.new }
{
    let from = at.offset;
    let Some(to) = plain_string_end(text, from) else {
        return 0;
    };
    let span = pack(Span { from, to });
    let made_row = row(Kind::String, at, span, 0, 0);
    lay(pool, made, made_row);
    to - from
}

// Is this surely no blank and no suffix? A second byte is read only where the first could double.
pub fn rests(text: &[u8], at: Place) -> bool
    requires { Stands text.now at }
    ensures { Rests text.now at result }
{
    let b = byte(text, at.offset);
    match b {
        0..=32 | 40 | 46 | 47 | 91 | 105 => false,
        43 | 45 => {
            let c = byte(text, at.offset + 1);
            c != b
        }
        _ => true,
    }
}

// Does an expression surely end here? One of `) , : ; ] }` stands here, or a `=` that opens no `==`, where one may follow.
pub fn over(text: &[u8], at: Place, assigning: bool) -> bool
    requires { Stands text.now at }
    ensures { Over text.now at assigning result }
{
    let b = byte(text, at.offset);
    match b {
        41 | 44 | 58 | 59 | 93 | 125 => true,
        61 => {
            if !assigning {
                return false;
            }
            let c = byte(text, at.offset + 1);
            c != 61
        }
        _ => false,
    }
}
