// What stands past the blanks, where the leaves begin.
ghost use Rattle.std.specs.Prelude.{◌≡◌};
ghost use Rattle.characters.specs.Text.{Stands};
ghost use Rattle.grammar.specs.Answers.{Passes};

use characters::blanks::{opens_blank, skip, spaces};
use characters::place::{Place, byte};
use characters::refusal::Refused;

// A place past the blanks, and the byte there, 256 at the end of the text.
#[derive(Clone, Copy, Debug, PartialEq, Eq)]
pub struct Front {
    pub here: Place,
    pub byte: u32,
}

// Past the blanks, which mostly are spaces: then one byte tells that no other blank follows. Small enough to be put into the leaves.
#[inline(always)]
pub fn past(text: &[u8], at: Place) -> Result<Front, Refused>
    requires { Stands text.now at }
    ensures { Passes text.now at result }
{
    let n = spaces(text, at.offset);
    let near = at.on(n);
    let first = byte(text, near.offset);
    if !opens_blank(first) {
        return Ok(Front {
            here: near,
            byte: first,
        });
    }
    let here = skip(text, at)?.next;
    let b = byte(text, here.offset);
    Ok(Front { here, byte: b })
}
