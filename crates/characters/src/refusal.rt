// The refusals of document 01, in the order of their numbers.
ghost use Rattle.std.specs.Prelude.{◌≡◌};
ghost use Rattle.characters.specs.Refusals.{number_of};

use crate::place::Place;

#[derive(Clone, Copy, Debug, PartialEq, Eq)]
pub enum Refusal {
    TooLong = 1,
    BadNesting = 2,
    NotUtf8 = 3,
    LeadingFrom = 4,
    TooDeep = 5,
    PoolFull = 6,
    TooManyComparisons = 7,
    ExpectedToken = 10,
    ExpectedIdentifier = 11,
    ReservedWord = 12,
    UnknownAtom = 13,
    OutsideInt64 = 14,
    IntegerTooLarge = 15,
    ExpectedDigit = 16,
    MisplacedSeparator = 17,
    NoExponentDigits = 18,
    EndOfInput = 19,
    BadStringEscape = 20,
    BadByteArray = 21,
    PostfixIncrement = 22,
    IncrementAsExpression = 23,
    UnaryPlus = 24,
    AssignmentAsExpression = 25,
    InvalidTarget = 26,
    NotACall = 27,
    DeclarationAsBody = 28,
    ExtraSemicolon = 29,
    Duplicate = 30,
    TooManyArguments = 31,
    InitWithoutParameter = 32,
}

// A refusal and its place.
#[derive(Clone, Copy, Debug, PartialEq, Eq)]
pub struct Refused {
    pub refusal: Refusal,
    pub at: Place,
}

impl Refusal {
    // The number that document 01 gives it.
    pub fn number(self) -> u32
        ensures { result ≡ number_of self }
    {
        self as u32
    }
}
