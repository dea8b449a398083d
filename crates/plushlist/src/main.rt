// Lists a Plush script: reads standard input as one unit, and writes its records, one a line, and the last line. An error while reading or
// writing is said on standard error. The program itself always ends with status 0; the launcher `plushlist` gives the exit status.
#![tactic(auto)]

ghost use Rattle.std.specs.Prelude.{◌≤◌, IfOk, length};

use std::io::Read;
use unit::entries::read;

fn main(rt: HostRuntime) {
    let mut space = io::large_buffer();
    match fill(rt, &mut space) {
        Ok(n) => list(&space[..n]),
        Err(_) => {
            io::write_all(2, b"plushlist: could not read standard input\n");
        }
    }
}

// Reads until the input ends or the buffer is full, and answers how many bytes there are. A full buffer holds 65,536 bytes, one more than a
// text may have: whatever follows them, the answer is refusal 1.
fn fill(rt: HostRuntime, space: &mut [u8]) -> std::io::Result<usize>
    ensures { IfOk result (λ n. n ≤ length space.new) }
{
    let mut input = rt.stdin();
    let mut count = 0;
    while count < space.len() {
        let more = input.read(&mut space[count..])?;
        if more == 0 {
            break;
        }
        count += more;
    }
    Ok(count)
}

// "string form, nesting 256, a pool of 1,024 records, the largest u32 as comparison limit"
fn list(text: &[u8]) {
    let mut pool = [0u32; 8192];
    let answer = read(text, &mut pool, 256, 4294967295, false);
    if !lister::list(text, &pool, answer) {
        io::write_all(2, b"plushlist: could not write the listing\n");
    }
}
