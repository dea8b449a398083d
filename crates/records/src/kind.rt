// The kinds of records.
ghost use Rattle.std.specs.Prelude.{◌≡◌, ok_or};
ghost use Rattle.records.specs.Kinds.{number_of, kind_of};

use std::error::Error;
use std::fmt;

// Each kind, by the listing's name, with the number that a row holds; the six last are all listed as `item`: an expression, a
// parameter's name, an expression with a dictionary key, a statement with a global number, a statement without one, and a method's
// function.
#[derive(Clone, Copy, Debug, PartialEq, Eq)]
pub enum Kind {
    True = 1,
    False = 2,
    Nil = 3,
    Int = 4,
    Float = 5,
    String = 6,
    Bytes = 7,
    Array = 8,
    Dict = 9,
    Name = 10,
    Host = 11,
    Closure = 12,
    Index = 13,
    Member = 14,
    InstanceOf = 15,
    Unary = 16,
    Binary = 17,
    Choice = 18,
    Call = 19,
    Do = 20,
    Assign = 21,
    Return = 22,
    Assert = 23,
    Break = 24,
    Continue = 25,
    Block = 26,
    If = 27,
    For = 28,
    Let = 29,
    ClassDecl = 30,
    Fun = 31,
    Class = 32,
    Item = 33,
    Param = 34,
    Pair = 35,
    Global = 36,
    Stated = 37,
    Method = 38,
}

// A number that is no kind's.
#[derive(Clone, Copy, Debug, PartialEq, Eq)]
pub struct UnknownKind {
    pub number: u32,
}

impl fmt::Display for UnknownKind {
    fn fmt<W: fmt::Write>(&self, f: &mut fmt::Formatter<W>) -> fmt::Result {
        write!(f, "no kind has the number {}", self.number)
    }
}

impl Error for UnknownKind {}

// The number that a row holds.
impl From<Kind> for u32 {
    ghost from_gives = { λ kind number. number ≡ number_of kind };

    fn from(kind: Kind) -> u32 {
        kind as u32
    }
}

// The kind that a number stands for, if it is one's.
impl TryFrom<u32> for Kind {
    type Error = UnknownKind;

    ghost try_from_gives = { λ number result. result ≡ ok_or (kind_of number) (record { number = number }) };

    fn try_from(number: u32) -> Result<Self, UnknownKind> {
        let kind = match number {
            1 => Kind::True,
            2 => Kind::False,
            3 => Kind::Nil,
            4 => Kind::Int,
            5 => Kind::Float,
            6 => Kind::String,
            7 => Kind::Bytes,
            8 => Kind::Array,
            9 => Kind::Dict,
            10 => Kind::Name,
            11 => Kind::Host,
            12 => Kind::Closure,
            13 => Kind::Index,
            14 => Kind::Member,
            15 => Kind::InstanceOf,
            16 => Kind::Unary,
            17 => Kind::Binary,
            18 => Kind::Choice,
            19 => Kind::Call,
            20 => Kind::Do,
            21 => Kind::Assign,
            22 => Kind::Return,
            23 => Kind::Assert,
            24 => Kind::Break,
            25 => Kind::Continue,
            26 => Kind::Block,
            27 => Kind::If,
            28 => Kind::For,
            29 => Kind::Let,
            30 => Kind::ClassDecl,
            31 => Kind::Fun,
            32 => Kind::Class,
            33 => Kind::Item,
            34 => Kind::Param,
            35 => Kind::Pair,
            36 => Kind::Global,
            37 => Kind::Stated,
            38 => Kind::Method,
            _ => return Err(UnknownKind { number }),
        };
        Ok(kind)
    }
}
