// Numbers in decimal.
ghost use Rattle.listing.specs.Sheets.{Writes, sheet};
ghost use Rattle.listing.specs.Listing.{decimal, place, signed};

use crate::sheet::put;

// A number, its first digits before its last.
pub fn decimal(out: &mut [u8], at: usize, n: u64) -> usize
    ensures { Writes (decimal n) (sheet out.old at) (sheet out.new result) }
{
    if n < 10 {
        let only = (48 + n) as u8;
        return put(out, at, only);
    }
    let next = decimal(out, at, n / 10);
    let last = (48 + n % 10) as u8;
    put(out, next, last)
}

// An int64 in two's complement.
pub fn signed(out: &mut [u8], at: usize, v: u64) -> usize
    ensures { Writes (signed v) (sheet out.old at) (sheet out.new result) }
{
    if v < 9223372036854775808 {
        return decimal(out, at, v);
    }
    let next = put(out, at, 45);
    let down = 18446744073709551615 - v;
    let n = down + 1;
    decimal(out, next, n)
}

// A line and a column.
pub fn place(out: &mut [u8], at: usize, line: u32, column: u32) -> usize
    ensures { Writes (place line column) (sheet out.old at) (sheet out.new result) }
{
    let first = decimal(out, at, line as u64);
    let next = put(out, first, 58);
    decimal(out, next, column as u64)
}
