// Eight bytes at a look: the compiler makes one load of them.
ghost use Rattle.std.specs.Prelude.{◌≡◌, true, ◌+◌, ◌≤◌, get_or, length};
ghost use Rattle.characters.specs.Text.{is_ascii};
ghost use Rattle.characters.specs.Counts.{end_of};
ghost use Rattle.characters.specs.Eights.{Low, Wide, digits_from};

// The byte at an offset, as wide as eight.
fn wide(text: &[u8], i: usize) -> u64
    requires { i + 1 ≤ length text.now }
    ensures { Wide (get_or text.now i 0) result }
{
    text[i] as u64
}

// Eight bytes as one number, the first its lowest digit.
fn eight(text: &[u8], i: usize) -> u64
    requires { i + 8 ≤ length text.now }
    ensures { result ≡ digits_from text.now i 0 8 }
{
    let a = wide(text, i);
    let b = wide(text, i + 1);
    let c = wide(text, i + 2);
    let d = wide(text, i + 3);
    let low = a + 256 * b + 65536 * c + 16777216 * d;
    let e = wide(text, i + 4);
    let f = wide(text, i + 5);
    let g = wide(text, i + 6);
    let h = wide(text, i + 7);
    let high = e + 256 * f + 65536 * g + 16777216 * h;
    low + 4294967296 * high
}

// Are the eight bytes from an offset on ASCII? None has its highest bit.
fn low_eight(text: &[u8], i: usize) -> bool
    requires { i + 8 ≤ length text.now }
    ensures { (result ≡ true) → Low 8 text.now i }
{
    let w = eight(text, i);
    let m = w & 9259542123273814144;
    m == 0
}

// Where the ASCII bytes from `from` on end.
pub fn ascii_end(text: &[u8], from: usize) -> usize
    requires { from ≤ length text.now }
    ensures { result ≡ end_of is_ascii text.now from }
{
    let n = text.len();
    let mut i = from;
    while 8 <= n - i {
        if !low_eight(text, i) {
            break;
        }
        i += 8;
    }
    for j in i..n {
        if 0x80 <= text[j] {
            return j;
        }
    }
    n
}
