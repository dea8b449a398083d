// The reserved words, and the tables by which a name is told to be one.
ghost use Rattle.std.specs.Prelude.{◌≡◌, ◌<◌, get_or};
ghost use Rattle.characters.specs.Words.{heads, rests, slots};
ghost use Rattle.characters.specs.WordNumbers.{number_of, number_of_word};

// Each reserved word, with its number.
#[derive(Clone, Copy, Debug, PartialEq, Eq)]
pub enum Word {
    True = 1,
    False = 2,
    Nil = 3,
    Let = 4,
    Var = 5,
    Fun = 6,
    Class = 7,
    Extends = 8,
    If = 9,
    Else = 10,
    Loop = 11,
    While = 12,
    For = 13,
    Return = 14,
    Break = 15,
    Continue = 16,
    Assert = 17,
    Instanceof = 18,
    Import = 19,
    Try = 20,
    Catch = 21,
    Finally = 22,
    Throw = 23,
    Yield = 24,
    Do = 25,
    In = 26,
    Match = 27,
    Export = 28,
}

impl Word {
    // Its number, from 1.
    pub fn number(self) -> u32
        ensures { result ≡ number_of self }
    {
        self as u32
    }

    // The word in a slot. Each has a slot of its own, by its length and first two letters.
    pub(crate) fn in_slot(slot: u32) -> Option<Word>
        requires { slot < 64 }
        ensures { number_of_word result ≡ get_or slots slot 0 }
    {
        match slot {
            2 => Some(Word::Break),
            3 => Some(Word::Loop),
            5 => Some(Word::False),
            6 => Some(Word::Catch),
            17 => Some(Word::Class),
            19 => Some(Word::Return),
            21 => Some(Word::Export),
            23 => Some(Word::Instanceof),
            24 => Some(Word::Match),
            25 => Some(Word::Nil),
            28 => Some(Word::Yield),
            30 => Some(Word::Import),
            31 => Some(Word::If),
            32 => Some(Word::Try),
            35 => Some(Word::Extends),
            39 => Some(Word::In),
            41 => Some(Word::Finally),
            43 => Some(Word::Let),
            45 => Some(Word::Else),
            46 => Some(Word::True),
            49 => Some(Word::While),
            50 => Some(Word::Throw),
            55 => Some(Word::For),
            57 => Some(Word::Var),
            60 => Some(Word::Assert),
            61 => Some(Word::Fun),
            62 => Some(Word::Continue),
            63 => Some(Word::Do),
            _ => None,
        }
    }

    // Its head: 65536 * length + 256 * first letter + second letter.
    pub(crate) fn head(self) -> u32
        ensures { result ≡ get_or heads (number_of self) 0 }
    {
        match self {
            Word::True => 291954,
            Word::False => 353889,
            Word::Nil => 224873,
            Word::Let => 224357,
            Word::Var => 226913,
            Word::Fun => 222837,
            Word::Class => 353132,
            Word::Extends => 484728,
            Word::If => 158054,
            Word::Else => 288108,
            Word::Loop => 289903,
            Word::While => 358248,
            Word::For => 222831,
            Word::Return => 422501,
            Word::Break => 352882,
            Word::Continue => 549743,
            Word::Assert => 418163,
            Word::Instanceof => 682350,
            Word::Import => 420205,
            Word::Try => 226418,
            Word::Catch => 353121,
            Word::Finally => 484969,
            Word::Throw => 357480,
            Word::Yield => 358761,
            Word::Do => 156783,
            Word::In => 158062,
            Word::Match => 355681,
            Word::Export => 419192,
        }
    }

    // Its rest: the letters after those two, each a digit to the base 256.
    pub(crate) fn rest(self) -> u64
        ensures { result ≡ get_or rests (number_of self) 0 }
    {
        match self {
            Word::True => 30053,
            Word::False => 7107429,
            Word::Nil => 108,
            Word::Let => 116,
            Word::Var => 114,
            Word::Fun => 110,
            Word::Class => 6386547,
            Word::Extends => 499917939827,
            Word::Else => 29541,
            Word::Loop => 28528,
            Word::While => 6909029,
            Word::For => 114,
            Word::Return => 1953854062,
            Word::Break => 6644075,
            Word::Continue => 121446264108389,
            Word::Assert => 1936028276,
            Word::Instanceof => 8319381538402037606,
            Word::Import => 1886351988,
            Word::Try => 121,
            Word::Catch => 7627624,
            Word::Finally => 474080898169,
            Word::Throw => 7499639,
            Word::Yield => 6646884,
            Word::Match => 7627624,
            Word::Export => 1886351988,
            Word::If | Word::Do | Word::In => 0,
        }
    }
}
