// From standard input to standard output, line by line.
use crate::put::{put, put_number};
use arrayvec::ArrayVec;
use std::convert::AsSlice;

// The numbers that the system gives to a program's standard input and output.
const STDIN: i32 = 0;

const STDOUT: i32 = 1;

// Writes what `describe` says of each line of the input, for which it is given the line, its number, and an answer whose place its own
// takes. `room` is for the whole input and one byte more: input that fills it is too long. Where an answer cannot be written, no more are.
pub fn answer_lines<A, F>(room: &mut [u8], mut describe: F)
where
    A: Default + AsSlice<u8> + Drop,
    F: FnMut(&[u8], usize, &mut A),
    requires { F.IsAlwaysCallable describe }
{
    let n = io::read_full(STDIN, room);
    if n == room.len() {
        say_too_long(n);
        return;
    }
    let lines = room[..n].split_inclusive(|&b| b == b'\n');
    let mut answer = A::default();
    for (i, line) in lines.enumerate() {
        let line = line.strip_suffix(b"\n").unwrap_or(line);
        describe(line, i + 1, &mut answer);
        if !io::write_all(STDOUT, answer.as_slice()) {
            return;
        }
    }
}

fn say_too_long(n: usize) {
    let mut text = ArrayVec::<u8, 60>::new();
    put(&mut text, b"input too long: expected at most ");
    put_number(&mut text, n.saturating_sub(1));
    put(&mut text, b" bytes\n");
    io::write_all(STDOUT, text.as_slice());
}
