// Tokens and keywords: one leaf skips the blanks, tests and steps.
ghost use Rattle.std.specs.Prelude.{◌≡◌, [], ◌∷◌, ◌+◌, ◌≤◌, ◌<◌, ◌^◌, eqb, drop, length};
ghost use Rattle.characters.specs.Text.{Stands};
ghost use Rattle.characters.specs.Tokens.{expected, keyword, look_by, spells, token};

use crate::blanks::{opens_blank, skip, spaces};
use crate::names::is_name_byte;
use crate::place::{Place, Token, byte};
use crate::refusal::{Refusal, Refused};

// What is looked for may be there: a token at `here` with the place after it, or the place where it is not.
#[derive(Clone, Copy, Debug, PartialEq, Eq)]
pub enum Look {
    Found { here: Place, next: Place },
    Missing { here: Place },
}

// Does the text go on with `w` at `from`? The words of the language have at most ten letters: such a word is compared up to the first byte
// that differs, which mostly is its first.
#[tactic(auto, using(crate::proofs::Looking::starts_spelled))]
pub fn spelled(text: &[u8], from: u32, w: &[u8]) -> bool
    requires { from ≤ length text.now }
    ensures { result ≡ spells w.now (drop from text.now) }
{
    if 10 < w.len() {
        return text[from as usize..].starts_with(w);
    }
    let start = from as usize;
    let left = text.len() - start;
    if left < w.len() {
        return false;
    }
    for i in 0..w.len() {
        if text[start + i] != w[i] {
            return false;
        }
    }
    true
}

// The token `w` past the blanks.
#[tactic(auto, unfolding(crate::specs::Tokens::token))]
pub fn token(text: &[u8], at: Place, w: &[u8]) -> Result<Look, Refused>
    requires { Stands text.now at }
    ensures { result ≡ token text.now at w.now }
{
    let here = skip(text, at)?.next;
    if !spelled(text, here.offset, w) {
        return Ok(Look::Missing { here });
    }
    let next = here.on(w.len() as u32);
    Ok(Look::Found { here, next })
}

// The keyword `w` past the blanks, which no letter, digit or `_` follows.
#[tactic(auto, unfolding(crate::specs::Tokens::keyword))]
pub fn keyword(text: &[u8], at: Place, w: &[u8]) -> Result<Look, Refused>
    requires { Stands text.now at }
    ensures { result ≡ keyword text.now at w.now }
{
    let here = skip(text, at)?.next;
    if !spelled(text, here.offset, w) {
        return Ok(Look::Missing { here });
    }
    let next = here.on(w.len() as u32);
    let b = byte(text, next.offset);
    if is_name_byte(b) {
        return Ok(Look::Missing { here });
    }
    Ok(Look::Found { here, next })
}

// The token `w` past the blanks, or 10.
#[tactic(auto, unfolding(crate::specs::Tokens::expected))]
pub fn expect(text: &[u8], at: Place, w: &[u8]) -> Result<Token, Refused>
    requires { Stands text.now at }
    ensures { result ≡ expected text.now at w.now }
{
    match token(text, at, w)? {
        Look::Found { here, next } => Ok(Token { here, next }),
        Look::Missing { here } => Err(Refused {
            refusal: Refusal::ExpectedToken,
            at: here,
        }),
    }
}

// The token of the one byte `b` past the blanks: no word to walk, and mostly no blank but spaces.
pub fn sign(text: &[u8], at: Place, b: u8) -> Result<Look, Refused>
    requires { Stands text.now at }
    ensures { result ≡ token text.now at (b ∷ []) }
{
    byte_token(text, at, b)
}

// The same, put into `sign` and `need`, so that `need` copies no answer.
#[inline(always)]
#[tactic(auto, unfolding(crate::specs::Tokens::token))]
fn byte_token(text: &[u8], at: Place, b: u8) -> Result<Look, Refused>
    requires { Stands text.now at }
    ensures { result ≡ token text.now at (b ∷ []) }
{
    let n = spaces(text, at.offset);
    let near = at.on(n);
    let first = byte(text, near.offset);
    if !opens_blank(first) {
        return Ok(sign_at(near, first, b));
    }
    let here = skip(text, at)?.next;
    let stands = byte(text, here.offset);
    Ok(sign_at(here, stands, b))
}

// The token of the one byte `b` at `here`, by the byte that stands there.
fn sign_at(here: Place, stands: u32, b: u8) -> Look
    requires { (here.offset + 1 < 2 ^ 32) × (here.column + 1 < 2 ^ 32) }
    ensures { result ≡ look_by (eqb b stands) 1 here }
{
    if b as u32 != stands {
        return Look::Missing { here };
    }
    let next = here.on(1);
    Look::Found { here, next }
}

// The token of the one byte `b` past the blanks, or 10. Places field by field, so that each stays in registers.
#[tactic(auto, unfolding(crate::specs::Tokens::expected))]
pub fn need(text: &[u8], at: Place, b: u8) -> Result<Token, Refused>
    requires { Stands text.now at }
    ensures { result ≡ expected text.now at (b ∷ []) }
{
    match byte_token(text, at, b)? {
        Look::Found { here, next } => Ok(Token {
            here: Place { ..here },
            next: Place { ..next },
        }),
        Look::Missing { here } => Err(Refused {
            refusal: Refusal::ExpectedToken,
            at: Place { ..here },
        }),
    }
}
