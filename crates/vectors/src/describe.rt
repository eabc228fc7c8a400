// The line of output for a line of input.
ghost use Rattle.std.specs.Prelude.{◌+◌, ◌≤◌, length};
ghost use Rattle.arrayvec.specs.ArrayVec.{array_vec_len};

use crate::answer::answer;
use crate::asked::asked_of;
use crate::error::QuestionError;
use crate::reading::describe_reading;
use crate::record::record_of;
use arrayvec::ArrayVec;
use text::put::{put, put_number};
use text::refusal::put_refusal;

// What comes of the record or the question, or what is wrong with the line, where `number` is the line's own. It takes the place of what
// `out` holds, and fits. The longest are a table of 600 words, each with 17 bytes, two numbers of at most 20 digits, and 22 bytes.
pub fn describe<const ROOM: usize>(
    line: &[u8],
    number: usize,
    buf: &mut [u8],
    table: &mut [u64],
    out: &mut ArrayVec<u8, ROOM>,
)
    requires { (600 ≤ length table.old) × (10262 ≤ ROOM) }
    ensures { array_vec_len out.new ≤ 10262 }
{
    out.clear();
    if line.first() == Some(&b'R') {
        describe_record(line, number, buf, table, out)
    } else {
        describe_question(line, number, buf, table, out)
    }
}

fn describe_record<const ROOM: usize>(
    line: &[u8],
    number: usize,
    buf: &mut [u8],
    table: &mut [u64],
    out: &mut ArrayVec<u8, ROOM>,
)
    requires { (600 ≤ length table.old) × (array_vec_len out.old + 10262 ≤ ROOM) }
    ensures { array_vec_len out.new ≤ array_vec_len out.old + 10262 }
{
    match record_of(line, buf) {
        Ok(record) => describe_reading(&buf[..record.length], &mut table[..record.words], out),
        Err(error) => put_wrong(
            out,
            number,
            error.text(),
            "R WORDS HEX, such as R 2 0103000000+4",
        ),
    }
}

fn describe_question<const ROOM: usize>(
    line: &[u8],
    number: usize,
    buf: &mut [u8],
    table: &mut [u64],
    out: &mut ArrayVec<u8, ROOM>,
)
    requires { (600 ≤ length table.old) × (array_vec_len out.old + 10262 ≤ ROOM) }
    ensures { array_vec_len out.new ≤ array_vec_len out.old + 10262 }
{
    match asked_of(line, buf, table) {
        Ok(asked) => answer(
            asked.question,
            &buf[..asked.length],
            &table[..asked.words],
            out,
        ),
        // the reading's answer, as there is no table to ask
        Err(QuestionError::NotRead(refusal)) => {
            put_refusal(out, refusal);
            put(out, b"\n");
        }
        Err(error) => put_wrong(out, number, error.text(), form_of(line)),
    }
}

// What is wrong with a line, and what it should look like.
fn put_wrong<const ROOM: usize>(
    out: &mut ArrayVec<u8, ROOM>,
    number: usize,
    error: &str,
    form: &str,
)
    requires { (length error.now ≤ 80) × (length form.now ≤ 80) × (array_vec_len out.old + 200 ≤ ROOM) }
    ensures { array_vec_len out.new ≤ array_vec_len out.old + 200 }
{
    put(out, b"line ");
    put_number(out, number);
    put(out, b": ");
    put(out, error.as_bytes());
    put(out, b"; expected ");
    put(out, form.as_bytes());
    put(out, b"\n");
}

// What a line of the same letter looks like.
fn form_of(line: &[u8]) -> &'static str
    ensures { length result.now ≤ 80 }
{
    match line {
        [b'C', ..] => "C TABLE HEX, such as C = 0103000000+4",
        [b'O', ..] => "O TABLE ROW INDEX AXIS HEX, such as O = 0 0 1 0101000000+16",
        [b'K', ..] => "K TABLE ROW INDEX HEX, such as K = 0 0 0101000000+16",
        [b'P', ..] => "P TABLE ROW HEX, such as P = 0 0101000000+16",
        [b'F', ..] => "F TABLE ROW HEX, such as F = 0 0101000000+16",
        [b'D', ..] => "D TABLE ROW INDEX, such as D - 0 0",
        [b'S', ..] => "S TABLE HEX, such as S = 0103000000+4",
        _ => "one of these letters and its fields, such as R 2 0103000000+4",
    }
}
