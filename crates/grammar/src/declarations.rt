// The heads of declarations: what stands between the keyword and the value or the body.
ghost use Rattle.std.specs.Prelude.{◌≡◌, ◌≤◌, length};
ghost use Rattle.characters.specs.Text.{Stands, ascii};
ghost use Rattle.characters.specs.Tokens.{expected};
ghost use Rattle.grammar.specs.Heads.{class_of, let_named, let_of, name_of, opened_by, parent_by};

use crate::blanks::past;
use crate::heads::{ClassHead, LetHead, name_of};
use crate::rows::name_word;
use characters::place::Place;
use characters::refusal::Refused;
use characters::tokens::{Look, keyword, need};

// After `let`: `var` or not, the name and its `=`. Mostly no `v` stands there, and then no keyword is compared.
pub fn let_of(text: &[u8], at: Place) -> Result<LetHead, Refused>
    requires { Stands text.now at × (length text.now ≤ 65535) }
    ensures { result ≡ let_of text.now at }
{
    let front = past(text, at)?;
    if front.byte != 118 {
        return let_named(text, front.here, 0);
    }
    match keyword(text, front.here, b"var")? {
        Look::Found { here: _, next } => let_named(text, next, 1),
        Look::Missing { here } => let_named(text, here, 0),
    }
}

// The name and its `=`, after `let` or after `let var`, by the mark.
fn let_named(text: &[u8], at: Place, mark: u32) -> Result<LetHead, Refused>
    requires { Stands text.now at × (length text.now ≤ 65535) }
    ensures { result ≡ let_named text.now mark (name_of text.now at) }
{
    let name = name_of(text, at)?;
    let next = need(text, name.next, b'=')?.next;
    let span = name_word(name.here, name.next);
    Ok(LetHead { mark, span, next })
}

// After the name of a class: its parent or none, and the `{`. Mostly no `e` stands there, and then no keyword is compared.
pub fn class_of(text: &[u8], at: Place) -> Result<ClassHead, Refused>
    requires { Stands text.now at × (length text.now ≤ 65535) }
    ensures { result ≡ class_of text.now at }
{
    let front = past(text, at)?;
    if front.byte != 101 {
        return opened(text, front.here, 0);
    }
    match keyword(text, front.here, b"extends")? {
        Look::Found { here: _, next } => parent(text, next),
        Look::Missing { here } => opened(text, here, 0),
    }
}

// After `extends`: the parent's name and the `{`.
fn parent(text: &[u8], at: Place) -> Result<ClassHead, Refused>
    requires { Stands text.now at × (length text.now ≤ 65535) }
    ensures { result ≡ parent_by text.now (name_of text.now at) }
{
    let name = name_of(text, at)?;
    let span = name_word(name.here, name.next);
    opened(text, name.next, span)
}

// The `{` of a class with this parent.
fn opened(text: &[u8], at: Place, parent: u32) -> Result<ClassHead, Refused>
    requires { Stands text.now at }
    ensures { result ≡ opened_by parent (expected text.now at (ascii "{")) }
{
    let next = need(text, at, b'{')?.next;
    Ok(ClassHead { parent, next })
}
