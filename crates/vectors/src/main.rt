// Reads the lines of its input, each a record to read or a question on a table, and writes for each its answer: docs/VECTORS.md.
#![tactic(auto)]

mod answer;
mod asked;
mod describe;
mod error;
mod question;
mod reading;
mod record;
mod table;

use arrayvec::ArrayVec;
use describe::describe;
use record::{MOST_BYTES, MOST_WORDS};
use text::answers::answer_lines;

// Room for the longest answer.
const ROOM: usize = 10_262;

// Room for the input, of which the last byte shows that it is too long.
const INPUT: usize = 1_048_576;

fn main() {
    let mut input = [0u8; INPUT];
    let mut bytes = [0u8; MOST_BYTES];
    let mut table = [0u64; MOST_WORDS];
    run(&mut input, &mut bytes, &mut table);
}

// The arrays become slices here and not in `main`, where their many zeros would be in the way of the proof.
fn run(input: &mut [u8; INPUT], bytes: &mut [u8; MOST_BYTES], table: &mut [u64; MOST_WORDS]) {
    answer_lines(
        input,
        |line: &[u8], number: usize, answer: &mut ArrayVec<u8, ROOM>| {
            describe(line, number, bytes, table, answer)
        },
    );
}
