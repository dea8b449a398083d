// Writes the listing of an answer to standard output, line by line.
#![tactic(auto)]

ghost use Rattle.std.specs.Prelude.{◌≤◌, length};

use listing::lines::{last, line};
use reading::answer::Answer;

// "prints the records made, after a refusal too", and the last line. Answers whether all was written. The sheet has room for any line
// (listing/specs/Promises.antt, `line_short`), so none is cut.
pub fn list(text: &[u8], pool: &[u32], answer: Answer) -> bool {
    let mut sheet = [0u8; 262209];
    for number in 1..=answer.records {
        if !write_record(&mut sheet, text, pool, number) {
            return false;
        }
    }
    write_last(&mut sheet, answer)
}

fn write_record(sheet: &mut [u8], text: &[u8], pool: &[u32], number: u32) -> bool
    requires { 262209 ≤ length sheet.old }
{
    let end = line(sheet, 0, text, pool, number);
    io::write_all(1, &sheet[..end])
}

fn write_last(sheet: &mut [u8], answer: Answer) -> bool
    requires { 262209 ≤ length sheet.old }
{
    let end = last(sheet, 0, answer);
    io::write_all(1, &sheet[..end])
}
