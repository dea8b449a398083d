// Ids of functions and classes. One counter serves both, and the two are kept apart: an id of one is never passed as the other's.
ghost use Rattle.std.specs.Prelude.{◌≡◌, ◌+◌, ◌-◌, ◌^◌, ◌<◌};

use reading::tally::Tally;

// The id of a function.
#[derive(Clone, Copy, Debug, PartialEq, Eq)]
pub struct FunId(u32);

// The id of a class.
#[derive(Clone, Copy, Debug, PartialEq, Eq)]
pub struct ClassId(u32);

impl FunId {
    // "0 means no id."
    pub const NONE: FunId = FunId(0);

    // The next id of the shared counter. `Tally::numbered` then counts it.
    pub fn next(t: Tally) -> Self
        requires { t.ids < 2 ^ 32 - 1 }
        ensures { result.0 ≡ t.ids + 1 }
    {
        let id = t.ids + 1;
        FunId(id)
    }
}

// The number that a record holds.
impl From<FunId> for u32 {
    ghost from_gives = { λ id number. number ≡ id.0 };

    fn from(id: FunId) -> u32 {
        id.0
    }
}

impl ClassId {
    // "0 means no id."
    pub const NONE: ClassId = ClassId(0);

    // The next id of the shared counter. `Tally::numbered` then counts it.
    pub fn next(t: Tally) -> Self
        requires { t.ids < 2 ^ 32 - 1 }
        ensures { result.0 ≡ t.ids + 1 }
    {
        let id = t.ids + 1;
        ClassId(id)
    }
}

// The number that a record holds.
impl From<ClassId> for u32 {
    ghost from_gives = { λ id number. number ≡ id.0 };

    fn from(id: ClassId) -> u32 {
        id.0
    }
}
