// What reading a record comes to.
ghost use Rattle.std.specs.Prelude.{◌+◌, ◌*◌, ◌≤◌, length};
ghost use Rattle.arrayvec.specs.ArrayVec.{array_vec_len};

use arrayvec::ArrayVec;
use meaning::Prefix;
use reader::read_wkb;
use text::put::{put, put_hex, put_number};
use text::refusal::put_refusal;

// What each word of a table holds before the reading.
const UNTOUCHED: u64 = 0xEEEE_EEEE_EEEE_EEEE;

pub fn describe_reading<const ROOM: usize>(
    buf: &[u8],
    table: &mut [u64],
    out: &mut ArrayVec<u8, ROOM>,
)
    requires { array_vec_len out.old + 62 + 17 * length table.old ≤ ROOM }
    ensures { array_vec_len out.new ≤ array_vec_len out.old + 62 + 17 * length table.old }
{
    table.fill(UNTOUCHED);
    match read_wkb(buf, table) {
        Ok(Prefix { length, rows }) => {
            // That the table has as many words is for the reader to prove, and not for this program to count on.
            let used = rows.saturating_mul(2).min(table.len());
            put(out, b"length ");
            put_number(out, length);
            put(out, b" rows ");
            put_number(out, rows);
            put_words(&table[..used], out);
            put_kept(&table[used..], out);
        }
        Err(refusal) => {
            put_refusal(out, refusal);
            put_kept(table, out);
        }
    }
}

// The words of the rows, each after a space.
fn put_words<const ROOM: usize>(words: &[u64], out: &mut ArrayVec<u8, ROOM>)
    requires { array_vec_len out.old + 17 * length words.now ≤ ROOM }
    ensures { array_vec_len out.new ≤ array_vec_len out.old + 17 * length words.now }
{
    for &word in words {
        put(out, b" ");
        put_hex::<16, _>(out, word);
    }
}

// Whether the words are as they were.
fn put_kept<const ROOM: usize>(words: &[u64], out: &mut ArrayVec<u8, ROOM>)
    requires { array_vec_len out.old + 9 ≤ ROOM }
    ensures { array_vec_len out.new ≤ array_vec_len out.old + 9 }
{
    let kept = words.iter().all(|&word| word == UNTOUCHED);
    if kept {
        put(out, b" kept\n");
    } else {
        put(out, b" changed\n");
    }
}
