// A byte, and bytes as they are.
ghost use Rattle.std.specs.Prelude.{[], ◌∷◌};
ghost use Rattle.listing.specs.Sheets.{Writes, sheet};

// One byte.
pub fn put(out: &mut [u8], at: usize, b: u8) -> usize
    ensures { Writes (b ∷ []) (sheet out.old at) (sheet out.new result) }
{
    if at < out.len() {
        out[at] = b;
        return at + 1;
    }
    out.len() + 1
}

// Bytes, as they are.
pub fn copy(out: &mut [u8], at: usize, bytes: &[u8]) -> usize
    ensures { Writes bytes.now (sheet out.old at) (sheet out.new result) }
{
    let mut next = at;
    for &b in bytes {
        next = put(out, next, b);
    }
    next
}
