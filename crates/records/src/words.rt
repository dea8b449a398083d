// Fields that are packed: a span of the text in one word, an int64 in two.
ghost use Rattle.std.specs.Prelude.{◌≡◌, ◌≤◌};
ghost use Rattle.records.specs.Words.{span_word, span_of, low_of, high_of, whole_of};

use characters::place::Span;

// The span in one word. "Text is at most 65,535 bytes."
pub fn pack(span: Span) -> u32
    requires { (span.from ≤ 65535) × (span.to ≤ 65535) }
    ensures { result ≡ span_word span.from span.to }
{
    let high = 65536 * span.to;
    span.from + high
}

// The span that a word holds.
pub fn unpack(word: u32) -> Span
    ensures { result ≡ span_of word }
{
    let from = word % 65536;
    let to = word / 65536;
    Span { from, to }
}

// The low half of an int64, given in two's complement.
pub fn low(value: u64) -> u32
    ensures { result ≡ low_of value }
{
    let half = value % 4294967296;
    half as u32
}

// Its high half.
pub fn high(value: u64) -> u32
    ensures { result ≡ high_of value }
{
    let half = value / 4294967296;
    half as u32
}

// The int64 of two halves.
pub fn whole(low: u32, high: u32) -> u64
    ensures { result ≡ whole_of low high }
{
    let upper = 4294967296 * (high as u64);
    low as u64 + upper
}
