// The pending operators of a chain: "`op_stack` never needs more than ten entries, one per binding strength: fixed arrays by value".
ghost use Rattle.std.specs.Prelude.{◌≡◌, ◌≤◌, ◌<◌};
ghost use Rattle.makers.specs.Answers.Reduced.{reduced_by};
ghost use Rattle.makers.specs.Duties.{HasRoom};
ghost use Rattle.makers.specs.Chains.{Pushed, Reduces, Rises};

use characters::place::Place;
use characters::refusal::Refused;
use grammar::operators::strength_of;
use records::book::Book;
use records::kind::Kind;

// An operator that waits for its right side: its number, and its left side's record, whose position the binary takes.
#[derive(Clone, Copy)]
pub struct Pends {
    pub op: u16,
    pub left: u16,
}

// The first `len` places count.
#[derive(Clone, Copy)]
pub struct Chain {
    pub waiting: [Pends; 10],
    pub len: u32,
}

impl Chain {
    // No operator waits.
    pub fn empty() -> Self
        ensures { result.len ≡ 0 }
    {
        let none = Pends { op: 0, left: 0 };
        let waiting = [none; 10];
        Self { waiting, len: 0 }
    }

    // One operator more, after the first `len`; its left side is the record `left`.
    pub fn push(self, len: u32, op: u32, left: u32) -> Self
        requires { (len < 10) × (op ≤ 65535) × (left ≤ 65535) }
        ensures { Pushed self len op left result }
    {
        let mut r = self;
        let i = len as usize;
        let last = Pends {
            op: op as u16,
            left: left as u16,
        };
        r.waiting[i] = last;
        r.len = len + 1;
        r
    }
}

// Makes the binaries of the pending operators that bind at least as tightly as `new`, newest first, when `at` is reached. Answers how many
// operators are left, the oldest ones.
pub fn reduce(book: &mut Book, cap: u32, at: Place, chain: Chain, new: u32) -> Result<u32, Refused>
    requires { HasRoom book.old cap × (1 ≤ book.old.tally.records) × Rises book.old.pool.now book.old.tally chain }
    ensures lent { book.new.pool.ghost_name ≡ book.old.pool.ghost_name }
    ensures acts { Reduces cap book.old.tally at new chain (reduced_by at result book.new.tally) book.old.pool.now book.new.pool.now }
{
    let mut len = chain.len;
    while 0 < len {
        let last = len - 1;
        let i = last as usize;
        let waits = chain.waiting[i];
        let op = waits.op as u32;
        if new < strength_of(op) {
            break;
        }
        let left = waits.left as u32;
        let right = book.tally.records;
        book.make_like(cap, at, Kind::Binary, left, op, left, right)?;
        len = last;
    }
    Ok(len)
}
