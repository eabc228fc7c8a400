// Reads type codes in hex, one to a line, from standard input, and writes for each what it says.
#![tactic(auto)]

mod describe;
mod line;

use describe::describe;
use text::answers::answer_lines;

// Room for the longest answer.
const ROOM: usize = 135;

fn main() {
    let mut input = io::large_buffer();
    answer_lines(&mut input, describe::<ROOM>);
}
