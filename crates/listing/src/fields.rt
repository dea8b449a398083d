// Fields, each with the space before it.
ghost use Rattle.std.specs.Prelude.{◌≡◌, [], ◌∷◌, ◌++◌, get_or};
ghost use Rattle.records.specs.Words.{whole_of};
ghost use Rattle.listing.specs.Sheets.{Writes, sheet};
ghost use Rattle.listing.specs.Listing.{bytes, decimal, field, minus, name, quoted, signed, spanned};
ghost use Rattle.listing.specs.Laws.Words.{past_words, up_to_space, split};

use crate::numbers::{decimal, signed};
use crate::sheet::{copy, put};
use crate::texts::{bytes, quoted};
use literals::strings::part;
use records::words::{unpack, whole};

// How a field prints.
#[derive(Clone, Copy, Debug, PartialEq, Eq)]
pub enum Form {
    // Not at all.
    Hidden,
    // A number: of a record, an id, a global number, a mark.
    Plain,
    // A name.
    Named,
    // A string.
    Quoted,
    // The bytes of a bytearray.
    Array,
    // A float, with its mark in the next field.
    Float,
    // An int64, with its high half in the next field.
    Int,
    // The sign of a unary.
    Prefix,
    // The sign of a binary.
    Sign,
}

// The bytes of a span, as far as they stand in the text.
fn spanned(text: &[u8], word: u32) -> &[u8]
    ensures { result.now ≡ spanned text.now word }
{
    let span = unpack(word);
    part(text, span.from, span.to)
}

// A number.
pub fn plain(out: &mut [u8], at: usize, n: u32) -> usize
    ensures { Writes (32 ∷ decimal n) (sheet out.old at) (sheet out.new result) }
{
    let next = put(out, at, 32);
    decimal(out, next, n as u64)
}

// A name, or `-`.
fn named(out: &mut [u8], at: usize, text: &[u8], word: u32) -> usize
    ensures { Writes (32 ∷ name text.now word) (sheet out.old at) (sheet out.new result) }
{
    let next = put(out, at, 32);
    if word == 0 {
        return put(out, next, 45);
    }
    let name = spanned(text, word);
    copy(out, next, name)
}

// A string.
fn string(out: &mut [u8], at: usize, text: &[u8], word: u32) -> usize
    ensures { Writes (32 ∷ quoted (spanned text.now word)) (sheet out.old at) (sheet out.new result) }
{
    let next = put(out, at, 32);
    let literal = spanned(text, word);
    quoted(out, next, literal)
}

// A bytearray.
fn array(out: &mut [u8], at: usize, text: &[u8], word: u32) -> usize
    ensures { Writes (bytes (spanned text.now word)) (sheet out.old at) (sheet out.new result) }
{
    let literal = spanned(text, word);
    bytes(out, at, literal)
}

// The minus of a float, where the mark is set.
fn minus(out: &mut [u8], at: usize, mark: u32) -> usize
    ensures { Writes (minus mark) (sheet out.old at) (sheet out.new result) }
{
    if mark == 1 {
        return put(out, at, 45);
    }
    at
}

// A float, as it is written.
fn float(out: &mut [u8], at: usize, text: &[u8], word: u32, mark: u32) -> usize
    ensures { Writes (32 ∷ minus mark ++ spanned text.now word) (sheet out.old at) (sheet out.new result) }
{
    let first = put(out, at, 32);
    let next = minus(out, first, mark);
    let literal = spanned(text, word);
    copy(out, next, literal)
}

// An int64 of its halves.
fn int(out: &mut [u8], at: usize, low: u32, high: u32) -> usize
    ensures { Writes (32 ∷ signed (whole_of low high)) (sheet out.old at) (sheet out.new result) }
{
    let next = put(out, at, 32);
    let value = whole(low, high);
    signed(out, next, value)
}

// What stands from the word with this number on, from 0 on, of words that a space ends each; nothing where there are fewer.
fn words_from(words: &[u8], n: u32) -> &[u8]
    ensures { result.now ≡ past_words n words.now }
{
    let mut left = n;
    for i in 0..words.len() {
        if left == 0 {
            return &words[i..];
        }
        if words[i] == 32 {
            left -= 1;
        }
    }
    &[]
}

// The first word, up to its space.
fn first_word(out: &mut [u8], at: usize, words: &[u8]) -> usize
    ensures { Writes (up_to_space words.now) (sheet out.old at) (sheet out.new result) }
{
    let mut next = at;
    for &b in words {
        if b == 32 {
            return next;
        }
        next = put(out, next, b);
    }
    next
}

// The word with this number, from 0 on, with a space before it; nothing more where there are fewer.
pub fn word(out: &mut [u8], at: usize, words: &[u8], n: u32) -> usize
    ensures { Writes (32 ∷ get_or (split words.now) n []) (sheet out.old at) (sheet out.new result) }
{
    let rest = words_from(words, n);
    let next = put(out, at, 32);
    first_word(out, next, rest)
}

// A field out of its word and the next.
pub fn field(
    out: &mut [u8],
    at: usize,
    text: &[u8],
    form: Form,
    value: u32,
    following: u32,
) -> usize
    ensures { Writes (field text.now form value following) (sheet out.old at) (sheet out.new result) }
{
    match form {
        Form::Hidden => at,
        Form::Plain => plain(out, at, value),
        Form::Named => named(out, at, text, value),
        Form::Quoted => string(out, at, text, value),
        Form::Array => array(out, at, text, value),
        Form::Float => float(out, at, text, value, following),
        Form::Int => int(out, at, value, following),
        Form::Prefix => word(out, at, b" - !", value),
        Form::Sign => word(
            out,
            at,
            b" * / % + - << >> <= < >= > == != && || & ^ |",
            value,
        ),
    }
}
