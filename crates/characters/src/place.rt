// Places in a text, by value, the steps from one to the next, spans and tokens.
ghost use Rattle.std.specs.Prelude.{◌≡◌, ◌+◌, ◌<◌, ◌≤◌, ◌^◌};
ghost use Rattle.characters.specs.Text.{ByteOf, Stands, line_on, next, on_by, past, start};

// A place: the bytes before it, and its line and column, which count characters from 1.
#[derive(Clone, Copy, Debug, PartialEq, Eq)]
pub struct Place {
    pub offset: u32,
    pub line: u32,
    pub column: u32,
}

// A span of a text: the offset of its first byte, and the offset after its last.
#[derive(Clone, Copy, Debug, PartialEq, Eq)]
pub struct Span {
    pub from: u32,
    pub to: u32,
}

// What was taken: where it begins, past the blanks, and the place after it.
#[derive(Clone, Copy, Debug, PartialEq, Eq)]
pub struct Token {
    pub here: Place,
    pub next: Place,
}

impl Place {
    // The place where every text begins: 1:1.
    pub fn start() -> Self
        ensures { result ≡ start }
    {
        Self {
            offset: 0,
            line: 1,
            column: 1,
        }
    }

    // So many characters on, each of one byte and none an LF.
    pub fn on(self, n: u32) -> Self
        requires { (self.offset + n < 2 ^ 32) × (self.column + n < 2 ^ 32) }
        ensures { result ≡ on_by n self }
    {
        Self {
            offset: self.offset + n,
            line: self.line,
            column: self.column + n,
        }
    }

    // After an LF.
    pub fn line_on(self) -> Self
        requires { (self.offset + 1 < 2 ^ 32) × (self.line + 1 < 2 ^ 32) }
        ensures { result ≡ line_on self }
    {
        Self {
            offset: self.offset + 1,
            line: self.line + 1,
            column: 1,
        }
    }

    // After the byte `b`, whichever it is. One test after the other: as a `match` it is compiled without a jump, and each byte of a comment
    // then waits for the one before.
    #[tactic(auto, unfolding(crate::specs::Text::past))]
    pub fn past(self, b: u32) -> Self
        requires { (self.offset + 1 < 2 ^ 32) × (self.line + 1 < 2 ^ 32) × (self.column + 1 < 2 ^ 32) }
        ensures { result ≡ past b self }
    {
        if b == 10 {
            return self.line_on();
        }
        if b < 128 {
            return self.on(1);
        }
        if b < 192 {
            return Self {
                offset: self.offset + 1,
                ..self
            };
        }
        self.on(1)
    }

    // After the character that stands here; past the end only the column moves.
    pub fn next(self, text: &[u8]) -> Self
        requires { Stands text.now self }
        ensures { result ≡ next text.now self }
    {
        let b = byte(text, self.offset);
        if b == 256 {
            return Self {
                column: self.column + 1,
                ..self
            };
        }
        let mut p = self.past(b);
        loop {
            let t = byte(text, p.offset);
            if !matches!(t, 128..=191) {
                return p;
            }
            p = p.past(t);
        }
    }
}

// The byte at an offset, or 256 past the end.
pub fn byte(text: &[u8], at: u32) -> u32
    ensures { ByteOf text.now at result }
{
    let i = at as usize;
    if i < text.len() { text[i] as u32 } else { 256 }
}
