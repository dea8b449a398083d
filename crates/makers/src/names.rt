// Names that are compared, and parameters.
ghost use Rattle.std.specs.Prelude.{◌≡◌, [], ◌∷◌, ◌-◌, ◌≤◌, ◌<◌, ◌^◌, eqb, length};
ghost use Rattle.characters.specs.Names.{same};
ghost use Rattle.reading.specs.Gots.{got_of};
ghost use Rattle.literals.specs.Strings.{decoded};
ghost use Rattle.records.specs.Words.{span_of};
ghost use Rattle.records.specs.Nodes.{Stored, closure_at, held_at, role_by};
ghost use Rattle.grammar.specs.Expressions.{turns};
ghost use Rattle.grammar.specs.Functions.{parameters_p, params_p};
ghost use Rattle.grammar.specs.Reads.{Ready};
ghost use Rattle.makers.specs.Duties.{Listing};
ghost use Rattle.makers.specs.Names.{Chained, Linked, Param, Unique, Well, alike_by, bytes_by, class_of, function_of, held_of, is_long, names_at, names_of, spells};

use crate::answers::Items;
use characters::names::free_name;
use characters::place::{Place, Span, Token, byte};
use characters::refusal::{Refusal, Refused};
use characters::tokens::Look;
use grammar::leaves::{close_of, follow_of};
use grammar::rows::{name_word, row};
use literals::strings::{key, part, same};
use reading::tally::Tally;
use records::book::Book;
use records::kind::Kind;
use records::nodes::{before_of, held_of, kind_of};
use records::words::{pack, unpack};

// The lists whose names are compared: the keys of a dictionary, the parameters of a function, the methods of a class, the functions of
// the unit and its classes.
#[derive(Clone, Copy)]
pub enum Naming {
    Keys,
    Parameters,
    Methods,
    Functions,
    Classes,
}

// Is it a closure, made before the record `number`?
fn is_closure(pool: &[u32], number: u32, value: u32) -> bool
    requires { Stored pool.now number }
    ensures { result ≡ closure_at pool.now number value }
{
    if number <= value {
        return false;
    }
    if value == 0 {
        return false;
    }
    let kind = kind_of(pool, value);
    kind == Kind::Closure as u32
}

// What a `let` declares: 2, a function, where its value is one, else what its mark says.
pub fn role_of(pool: &[u32], number: u32) -> u32
    requires { Stored pool.now number }
    ensures { result ≡ role_by (closure_at pool.now number (held_at pool.now number 2)) (held_at pool.now number 0) }
{
    let value = held_of(pool, number, 2);
    let function = is_closure(pool, number, value);
    if function {
        return 2;
    }
    held_of(pool, number, 0)
}

// The function that a statement declares.
fn function_of(pool: &[u32], number: u32) -> Option<Span>
    requires { Stored pool.now number }
    ensures { held_of result ≡ function_of pool.now number }
{
    let kind = kind_of(pool, number);
    if kind != Kind::Let as u32 {
        return None;
    }
    let word = held_of(pool, number, 1);
    let role = role_of(pool, number);
    if role != 2 {
        return None;
    }
    Some(unpack(word))
}

// The class that a statement declares.
fn class_of(pool: &[u32], number: u32) -> Option<Span>
    requires { Stored pool.now number }
    ensures { held_of result ≡ class_of pool.now number }
{
    let kind = kind_of(pool, number);
    if kind != Kind::ClassDecl as u32 {
        return None;
    }
    let class = held_of(pool, number, 0);
    if number <= class {
        return None;
    }
    if class == 0 {
        return None;
    }
    let word = held_of(pool, class, 1);
    Some(unpack(word))
}

// A word that holds a name.
fn named(word: u32) -> Option<Span>
    ensures { held_of result ≡ span_of word ∷ [] }
{
    Some(unpack(word))
}

// The name that an item holds.
fn name_at(pool: &[u32], naming: Naming, item: u32) -> Option<Span>
    requires { Linked naming pool.now item }
    ensures { held_of result ≡ names_at naming pool.now item }
{
    match naming {
        Naming::Keys => {
            let word = held_of(pool, item, 2);
            named(word)
        }
        Naming::Parameters => {
            let word = held_of(pool, item, 0);
            named(word)
        }
        Naming::Methods => {
            let function = held_of(pool, item, 0);
            let word = held_of(pool, function, 1);
            named(word)
        }
        Naming::Functions => {
            let statement = held_of(pool, item, 0);
            function_of(pool, statement)
        }
        Naming::Classes => {
            let statement = held_of(pool, item, 0);
            class_of(pool, statement)
        }
    }
}

// Are these names compared by what they spell? Others are compared by their bytes.
fn is_spelled(naming: Naming) -> bool
    ensures { result ≡ spells naming }
{
    match naming {
        Naming::Keys => true,
        Naming::Parameters => false,
        Naming::Methods => false,
        Naming::Functions => false,
        Naming::Classes => false,
    }
}

// The bytes of a name: a key's are those between its quotes.
fn bytes_of(text: &[u8], spelled: bool, name: Span) -> &[u8]
    requires { length text.now < 2 ^ 31 }
    ensures { result.now ≡ bytes_by spelled text.now name }
{
    if spelled {
        return key(text, name);
    }
    part(text, name.from, name.to)
}

// Is this byte alone no character? It opens an escape, or stands beyond ASCII. Past the end stands 256.
fn is_long(b: u32) -> bool
    ensures { result ≡ is_long b }
{
    match b {
        92 => true,
        128..=255 => true,
        _ => false,
    }
}

// Do these spell the same characters? Only where an escape or a byte beyond ASCII stands before the first difference are they decoded.
fn same_spelled(a: &[u8], b: &[u8]) -> bool
    requires { (length a.now < 2 ^ 31) × (length b.now < 2 ^ 31) }
    ensures { result ≡ same (decoded a.now) (decoded b.now) }
{
    let mut i: u32 = 0;
    loop {
        let x = byte(a, i);
        let y = byte(b, i);
        if is_long(x) {
            return same(a, b);
        }
        if is_long(y) {
            return same(a, b);
        }
        if x != y {
            return false;
        }
        if x == 256 {
            return true;
        }
        i += 1;
    }
}

// Are these the same bytes? Names of other lengths differ.
fn same_bytes(a: &[u8], b: &[u8]) -> bool
    ensures { result ≡ same a.now b.now }
{
    let n = a.len();
    if b.len() != n {
        return false;
    }
    let mut i = 0;
    while i < n {
        if a[i] != b[i] {
            return false;
        }
        i += 1;
    }
    true
}

// Are two names the same, by their bytes or by what these spell?
fn same_by(spelled: bool, a: &[u8], b: &[u8]) -> bool
    requires { (length a.now < 2 ^ 31) × (length b.now < 2 ^ 31) }
    ensures { result ≡ alike_by spelled a.now b.now }
{
    if spelled {
        return same_spelled(a, b);
    }
    same_bytes(a, b)
}

// THE WALK: a new name and those of the items from `last` back, "newest first, up to the first equal". Each comparison is counted when
// `at` is reached; a name that stands there already is 30 at `from`. Put into its callers, so that each walks over one kind of items.
#[inline(always)]
pub fn new_name(
    text: &[u8],
    pool: &[u32],
    comps: u32,
    tally: &mut Tally,
    at: Place,
    from: Place,
    name: Span,
    last: u32,
    naming: Naming,
) -> Result<Place, Refused>
    requires { (length text.now < 2 ^ 31) × Chained naming pool.now last }
    ensures { Unique naming text.now comps tally.old at from name (names_of naming pool.now last) (got_of result tally.new) }
{
    let spelled = is_spelled(naming);
    let mine = bytes_of(text, spelled, name);
    let mut item = last;
    while item != 0 {
        let before = before_of(pool, item);
        if let Some(other) = name_at(pool, naming, item) {
            if comps <= tally.comparisons {
                return Err(Refused {
                    refusal: Refusal::TooManyComparisons,
                    at,
                });
            }
            tally.comparisons += 1;
            let theirs = bytes_of(text, spelled, other);
            if same_by(spelled, mine, theirs) {
                return Err(Refused {
                    refusal: Refusal::Duplicate,
                    at: from,
                });
            }
        }
        item = before;
    }
    Ok(at)
}

// A new key of a dictionary that ends at `at`, and those of the items from `last` back.
pub fn new_key(
    text: &[u8],
    pool: &[u32],
    comps: u32,
    tally: &mut Tally,
    at: Place,
    key: Span,
    last: u32,
) -> Result<Place, Refused>
    requires { (length text.now < 2 ^ 31) × Chained Naming.Keys pool.now last }
    ensures { Unique Naming.Keys text.now comps tally.old at at key (names_of Naming.Keys pool.now last) (got_of result tally.new) }
{
    new_name(text, pool, comps, tally, at, at, key, last, Naming::Keys)
}

// The walk over the records of a book, which stay as they are. Put into its callers, as the walk is.
#[inline(always)]
pub fn compare_name(
    text: &[u8],
    book: &mut Book,
    comps: u32,
    at: Place,
    from: Place,
    name: Span,
    last: u32,
    naming: Naming,
) -> Result<Place, Refused>
    requires { (length text.now < 2 ^ 31) × Chained naming book.old.pool.now last }
    ensures lent { book.new.pool.ghost_name ≡ book.old.pool.ghost_name }
    ensures compared { Unique naming text.now comps book.old.tally at from name (names_of naming book.old.pool.now last) (got_of result book.new.tally) }
    ensures same { book.new.pool.now ≡ book.old.pool.now }
{
    let mut tally = book.tally;
    let pool = book.words();
    let new = new_name(text, pool, comps, &mut tally, at, from, name, last, naming);
    book.tally = tally;
    new
}

// The same of a new key.
pub fn compare_key(
    text: &[u8],
    book: &mut Book,
    comps: u32,
    at: Place,
    key: Span,
    last: u32,
) -> Result<Place, Refused>
    requires { (length text.now < 2 ^ 31) × Chained Naming.Keys book.old.pool.now last }
    ensures lent { book.new.pool.ghost_name ≡ book.old.pool.ghost_name }
    ensures compared { Unique Naming.Keys text.now comps book.old.tally at at key (names_of Naming.Keys book.old.pool.now last) (got_of result book.new.tally) }
    ensures same { book.new.pool.now ≡ book.old.pool.now }
{
    let mut tally = book.tally;
    let pool = book.words();
    let new = new_key(text, pool, comps, &mut tally, at, key, last);
    book.tally = tally;
    new
}

// name, and its item
fn param(
    text: &[u8],
    book: &mut Book,
    cap: u32,
    comps: u32,
    last: u32,
    at: Place,
) -> Result<Place, Refused>
    requires { Ready text.now book.old.pool.now cap at book.old.tally × Well Naming.Parameters book.old.pool.now book.old.tally last }
    ensures lent { book.new.pool.ghost_name ≡ book.old.pool.ghost_name }
    ensures acts { Param text.now cap comps last at book.old.tally (got_of result book.new.tally) book.old.pool.now book.new.pool.now }
{
    let Token { here, next } = free_name(text, at)?;
    let name = Span {
        from: here.offset,
        to: next.offset,
    };
    compare_name(
        text,
        book,
        comps,
        next,
        next,
        name,
        last,
        Naming::Parameters,
    )?;
    let nowhere = Place {
        offset: 0,
        line: 0,
        column: 0,
    };
    let word = name_word(here, next);
    let made = row(Kind::Param, nowhere, word, last, 0);
    book.make(cap, next, made)
}

// { name ',' } [ name ] end
fn params(
    text: &[u8],
    book: &mut Book,
    cap: u32,
    comps: u32,
    end: u8,
    at: Place,
) -> Result<Items, Refused>
    requires { Ready text.now book.old.pool.now cap at book.old.tally }
    ensures lent { book.new.pool.ghost_name ≡ book.old.pool.ghost_name }
    ensures acts { Listing text.now cap comps at book.old (params_p (turns text.now) text.now end [] 0 0 at) result book.new }
{
    let mut here = at;
    let mut last: u32 = 0;
    let mut count: u32 = 0;
    loop {
        let close = close_of(text, here, end)?;
        let first = match close {
            Look::Found { here: _, next } => {
                return Ok(Items {
                    at: next,
                    last,
                    count,
                });
            }
            Look::Missing { here } => here,
        };
        let after = param(text, book, cap, comps, last, first)?;
        last = book.tally.records;
        count += 1;
        let follow = follow_of(text, after, end)?;
        match follow {
            Look::Found { here: _, next } => {
                return Ok(Items {
                    at: next,
                    last,
                    count,
                });
            }
            Look::Missing { here: next } => here = next,
        }
    }
}

// parameters: { name ',' } [ name ] end; "at most 255", tested after the closing sign
pub fn parameters(
    text: &[u8],
    book: &mut Book,
    cap: u32,
    comps: u32,
    end: u8,
    at: Place,
) -> Result<Items, Refused>
    requires { Ready text.now book.old.pool.now cap at book.old.tally }
    ensures lent { book.new.pool.ghost_name ≡ book.old.pool.ghost_name }
    ensures acts { Listing text.now cap comps at book.old (parameters_p text.now end at) result book.new }
{
    let items = params(text, book, cap, comps, end, at)?;
    if 256 <= items.count {
        return Err(Refused {
            refusal: Refusal::TooManyArguments,
            at: items.at,
        });
    }
    Ok(items)
}
