// What stands at a place where a statement, a declaration or a unit's item begins: the answers of the leaves.
ghost use Rattle.std.specs.Prelude.{◌≡◌};
ghost use Rattle.characters.specs.Text.{ByteOf, Stands};
ghost use Rattle.characters.specs.Names.{name};
ghost use Rattle.characters.specs.WordNumbers.{number_of};
ghost use Rattle.grammar.specs.Heads.{end_of, head_by, head_of, item_by, item_of, name_head, name_of, word_head};

use crate::blanks::past;
use characters::names::{free_name, is_letter, is_name_byte, name, word};
use characters::place::{Place, Token, byte};
use characters::refusal::{Refusal, Refused};
use characters::reserved::Word;
use characters::tokens::{Look, sign, spelled};

// What a statement begins with: a keyword or `{`, with its place and the place after it, or an expression or assignment.
#[derive(Clone, Copy, Debug, PartialEq, Eq)]
pub enum StatementHead {
    Return { here: Place, next: Place },
    Break { here: Place, next: Place },
    Continue { here: Place, next: Place },
    If { here: Place, next: Place },
    Loop { here: Place, next: Place },
    While { here: Place, next: Place },
    For { here: Place, next: Place },
    Assert { here: Place, next: Place },
    Let { here: Place, next: Place },
    Fun { here: Place, next: Place },
    Block { here: Place, next: Place },
    ExprOrAssign { here: Place },
}

// What an expression or assignment statement begins with: `++` or `--` as an operator's number, with the target's place, or an expression.
#[derive(Clone, Copy, Debug, PartialEq, Eq)]
pub enum StepHead {
    Step { op: u32, next: Place },
    Other,
}

// An assignment sign, which may follow the expression of a statement: its operator's number or 0, and the place after it.
#[derive(Clone, Copy, Debug, PartialEq, Eq)]
pub struct Assignment {
    pub op: u32,
    pub next: Place,
}

// What follows `let`, up to its `=`: 1 with `var`, else 0; the name as a span; the place after the `=`.
#[derive(Clone, Copy, Debug, PartialEq, Eq)]
pub struct LetHead {
    pub mark: u32,
    pub span: u32,
    pub next: Place,
}

// What follows the name of a class, up to its `{`: the parent's name as a span or 0, and the place after the `{`.
#[derive(Clone, Copy, Debug, PartialEq, Eq)]
pub struct ClassHead {
    pub parent: u32,
    pub next: Place,
}

// What an item of the unit begins with: nothing, at the end of the text; `class`, with its place and the place after it; a statement.
#[derive(Clone, Copy, Debug, PartialEq, Eq)]
pub enum ItemHead {
    End { here: Place },
    Class { here: Place, next: Place },
    Statement { here: Place },
}

// The name past the blanks, where reserved words are barred: 11 or 12 at its start.
pub fn name_of(text: &[u8], at: Place) -> Result<Token, Refused>
    requires { Stands text.now at }
    ensures { result ≡ name_of text.now at }
{
    let front = past(text, at)?;
    free_name(text, front.here)
}

// Past the blanks what a statement begins with; `;` is 29.
pub fn head_of(text: &[u8], at: Place) -> Result<StatementHead, Refused>
    requires { Stands text.now at }
    ensures { result ≡ head_of text.now at }
{
    let front = past(text, at)?;
    head_at(text, front.here, front.byte)
}

// The statement here, by its first byte `b`.
fn head_at(text: &[u8], here: Place, b: u32) -> Result<StatementHead, Refused>
    requires { Stands text.now here }
    ensures { result ≡ head_by text.now b here }
{
    if is_letter(b) {
        return name_head(text, here);
    }
    match b {
        59 => Err(Refused {
            refusal: Refusal::ExtraSemicolon,
            at: here,
        }),
        123 => {
            let next = here.on(1);
            Ok(StatementHead::Block { here, next })
        }
        _ => Ok(StatementHead::ExprOrAssign { here }),
    }
}

// The statement that begins with the name at `at`: one look at its word decides.
fn name_head(text: &[u8], at: Place) -> Result<StatementHead, Refused>
    requires { Stands text.now at }
    ensures { result ≡ name_head text.now (name text.now at) }
{
    let read = name(text, at)?;
    match word(text, read.here.offset, read.next.offset) {
        Some(word) => Ok(word_head(word, read.here, read.next)),
        None => Ok(StatementHead::ExprOrAssign { here: read.here }),
    }
}

// The statement that this word opens; every other word is left to the expression.
fn word_head(word: Word, here: Place, next: Place) -> StatementHead
    ensures { result ≡ word_head (number_of word) here next }
{
    match word {
        Word::Let => StatementHead::Let { here, next },
        Word::Fun => StatementHead::Fun { here, next },
        Word::If => StatementHead::If { here, next },
        Word::Loop => StatementHead::Loop { here, next },
        Word::While => StatementHead::While { here, next },
        Word::For => StatementHead::For { here, next },
        Word::Return => StatementHead::Return { here, next },
        Word::Break => StatementHead::Break { here, next },
        Word::Continue => StatementHead::Continue { here, next },
        Word::Assert => StatementHead::Assert { here, next },
        _ => StatementHead::ExprOrAssign { here },
    }
}

// Past the blanks the `}` of a block, or a statement; the end of the text is 19 where it stands before any blanks.
pub fn end_of(text: &[u8], at: Place) -> Result<Look, Refused>
    requires { Stands text.now at }
    ensures { result ≡ end_of text.now at }
{
    let b = byte(text, at.offset);
    if b == 256 {
        return Err(Refused {
            refusal: Refusal::EndOfInput,
            at,
        });
    }
    sign(text, at, b'}')
}

// Past the blanks what an item of the unit begins with.
pub fn item_of(text: &[u8], at: Place) -> Result<ItemHead, Refused>
    requires { Stands text.now at }
    ensures { result ≡ item_of text.now at }
{
    let front = past(text, at)?;
    Ok(item_at(text, front.here, front.byte))
}

// The item here, by its first byte `b`: only where it is a `c` is the keyword compared.
fn item_at(text: &[u8], here: Place, b: u32) -> ItemHead
    requires { Stands text.now here × ByteOf text.now here.offset b }
    ensures { result ≡ item_by text.now b here }
{
    match b {
        99 => class_item(text, here),
        256 => ItemHead::End { here },
        _ => ItemHead::Statement { here },
    }
}

// A class or a statement, where a `c` stands here.
fn class_item(text: &[u8], here: Place) -> ItemHead
    requires { Stands text.now here }
    ensures { result ≡ item_by text.now 99 here }
{
    if !spelled(text, here.offset, b"class") {
        return ItemHead::Statement { here };
    }
    let next = here.on(5);
    let c = byte(text, next.offset);
    if is_name_byte(c) {
        return ItemHead::Statement { here };
    }
    ItemHead::Class { here, next }
}
