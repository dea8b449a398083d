// Classes. `left` is the number of levels that may still be entered; what was read is the last record made.
ghost use Rattle.std.specs.Prelude.{◌≡◌, ◌&&◌, ◌≤◌, eqb, length};
ghost use Rattle.reading.specs.Entry.{nowhere};
ghost use Rattle.reading.specs.Process.{call, plain};
ghost use Rattle.records.specs.Nodes.{Stored, held_at};
ghost use Rattle.grammar.specs.Answers.{opens_class};
ghost use Rattle.grammar.specs.Leaves.{row_of};
ghost use Rattle.grammar.specs.Expressions.{class};
ghost use Rattle.grammar.specs.Classes.{class_as, class_end_p, class_p, is_init};
ghost use Rattle.makers.specs.Duties.{Acting, HasRoom};
ghost use Rattle.makers.specs.Names.{Well, names_of};
ghost use Rattle.readers.specs.Reading.{MayRead, Reading};
ghost use Rattle.unit.specs.Items.{ReadingMethod};

use characters::names::name;
use characters::place::{Place, Span, Token};
use characters::refusal::{Refusal, Refused};
use characters::tokens::{Look, spelled};
use grammar::declarations::class_of;
use grammar::heads::name_of;
use grammar::leaves::close_of;
use grammar::rows::{class_row, name_word, row};
use makers::names::{Naming, compare_name};
use readers::cycle::Reader;
use records::book::Book;
use records::ids::ClassId;
use records::kind::Kind;
use records::row::Row;

// An item of a class or of the unit: what it holds, the item before it and, of a constant, its global number. It has no position.
pub fn item_row(kind: Kind, element: u32, last: u32, number: u32) -> Row
    ensures { result ≡ row_of kind nowhere element last number }
{
    let nowhere = Place {
        offset: 0,
        line: 0,
        column: 0,
    };
    row(kind, nowhere, element, last, number)
}

// Is this name `init`?
fn is_init(text: &[u8], token: Token) -> bool
    requires { (token.here.offset ≤ token.next.offset) × (token.next.offset ≤ length text.now) }
    ensures { result ≡ is_init text.now token.here token.next }
{
    let size = token.next.offset - token.here.offset;
    size == 4 && spelled(text, token.here.offset, b"init")
}

// Is it `init`, and has its function no parameter?
fn is_bare(text: &[u8], book: &Book, token: Token, function: u32) -> bool
    requires { (token.here.offset ≤ token.next.offset) × (token.next.offset ≤ length text.now) × Stored book.now.pool.now function }
    ensures { result ≡ (is_init text.now token.here token.next && eqb (held_at book.now.pool.now function 2) 0) }
{
    is_init(text, token) && book.held_of(function, 2) == 0
}

// method: name function
// Its function stands at its name. 32: "`init` without parameter", tested when the function is read.
fn method(
    reader: &Reader,
    book: &mut Book,
    left: u32,
    last: u32,
    at: Place,
) -> Result<Place, Refused>
    requires { MayRead reader.now book.old at × Well Naming.Methods book.old.pool.now book.old.tally last }
    ensures lent { book.new.pool.ghost_name ≡ book.old.pool.ghost_name }
    ensures reads { ReadingMethod reader.now book.old left last at result book.new }
{
    let token = name(reader.text, at)?;
    let span = Span {
        from: token.here.offset,
        to: token.next.offset,
    };
    compare_name(
        reader.text,
        book,
        reader.comps,
        token.next,
        token.next,
        span,
        last,
        Naming::Methods,
    )?;
    let word = name_word(token.here, token.next);
    let q = reader.func(book, left, token.here, word, token.next)?;
    let function = book.tally.records;
    if is_bare(reader.text, book, token, function) {
        return Err(Refused {
            refusal: Refusal::InitWithoutParameter,
            at: q,
        });
    }
    let item = item_row(Kind::Method, function, last, 0);
    book.make(reader.cap, q, item)
}

// A class whose methods are read, up to the item `methods`: its id, then its record.
fn make_class(
    book: &mut Book,
    cap: u32,
    from: Place,
    name: u32,
    parent: u32,
    methods: u32,
    at: Place,
) -> Result<Place, Refused>
    requires { HasRoom book.old cap }
    ensures lent { book.new.pool.ghost_name ≡ book.old.pool.ghost_name }
    ensures sized { length book.new.pool.now ≡ length book.old.pool.now }
    ensures acts { Acting cap at book.old (class_end_p from name parent (plain methods at) at) result book.new }
{
    let tally = book.tally;
    let id = ClassId::next(tally);
    book.tally = tally.numbered();
    let class = class_row(from, id, name, parent, methods);
    book.make(cap, at, class)
}

// { method } '}'
// After the `{` of the class that has this name and this parent, or 0.
fn methods(
    reader: &Reader,
    book: &mut Book,
    left: u32,
    from: Place,
    name: u32,
    parent: u32,
    at: Place,
) -> Result<Place, Refused>
    requires { MayRead reader.now book.old at }
    ensures lent { book.new.pool.ghost_name ≡ book.old.pool.ghost_name }
    ensures reads { Reading reader.now book.old left at (class_as reader.now.text.now from name (opens_class parent at)) result book.new }
{
    let mut here = at;
    let mut last: u32 = 0;
    loop {
        match close_of(reader.text, here, b'}')? {
            Look::Found { here: _, next } => {
                return make_class(book, reader.cap, from, name, parent, last, next);
            }
            Look::Missing { here: q } => {
                here = method(reader, book, left, last, q)?;
                last = book.tally.records;
            }
        }
    }
}

// name [ 'extends' name ] '{' { method } '}'
// After `class`, which stands at `from`. The name is compared with the classes of the unit's items from `last` back: "30 the class's ..
// start".
fn named_class(
    reader: &Reader,
    book: &mut Book,
    left: u32,
    from: Place,
    last: u32,
    at: Place,
) -> Result<Place, Refused>
    requires { MayRead reader.now book.old at × Well Naming.Classes book.old.pool.now book.old.tally last }
    ensures lent { book.new.pool.ghost_name ≡ book.old.pool.ghost_name }
    ensures reads { Reading reader.now book.old left at (class_p reader.now.text.now from (names_of Naming.Classes book.old.pool.now last) at) result book.new }
{
    let token = name_of(reader.text, at)?;
    let span = Span {
        from: token.here.offset,
        to: token.next.offset,
    };
    compare_name(
        reader.text,
        book,
        reader.comps,
        token.next,
        from,
        span,
        last,
        Naming::Classes,
    )?;
    let head = class_of(reader.text, token.next)?;
    let word = name_word(token.here, token.next);
    methods(reader, book, left, from, word, head.parent, head.next)
}

// class: 'class' name [ 'extends' name ] '{' { method } '}'
// After `class`: a level.
pub fn class(
    reader: &Reader,
    book: &mut Book,
    left: u32,
    from: Place,
    last: u32,
    at: Place,
) -> Result<Place, Refused>
    requires { MayRead reader.now book.old at × Well Naming.Classes book.old.pool.now book.old.tally last }
    ensures lent { book.new.pool.ghost_name ≡ book.old.pool.ghost_name }
    ensures reads { Reading reader.now book.old left at (call (class from (names_of Naming.Classes book.old.pool.now last)) at) result book.new }
{
    if left == 0 {
        return Err(Refused {
            refusal: Refusal::TooDeep,
            at,
        });
    }
    let lower = left - 1;
    named_class(reader, book, lower, from, last, at)
}
