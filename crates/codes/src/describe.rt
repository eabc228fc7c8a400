// The line of output for a line of input.
ghost use Rattle.std.specs.Prelude.{◌+◌, ◌≤◌};
ghost use Rattle.arrayvec.specs.ArrayVec.{array_vec_len};

use crate::line::{SpellingError, code_of};
use arrayvec::ArrayVec;
use fields::code::type_of;
use meaning::WkbType;
use text::put::{put, put_hex, put_number};

// What the line says, or what is wrong with it, where `number` is the line's own. It takes the place of what `out` holds, and fits: that a
// character is no hex digit, the longest, takes two numbers of at most 20 digits, and 95 bytes.
pub fn describe<const ROOM: usize>(line: &[u8], number: usize, out: &mut ArrayVec<u8, ROOM>)
    requires { 135 ≤ ROOM }
    ensures { array_vec_len out.new ≤ 135 }
{
    out.clear();
    match code_of(line) {
        Ok(code) => describe_code(code, out),
        Err(error) => {
            put(out, b"line ");
            put_number(out, number);
            put(out, b": ");
            put_error(out, error);
            put(
                out,
                b"; expected a type code of 1 to 8 hex digits, such as 200003E9\n",
            );
        }
    }
}

// What is wrong with the line. No `Display` says it, since of what that writes no contract says that it fits.
fn put_error<const ROOM: usize>(out: &mut ArrayVec<u8, ROOM>, error: SpellingError)
    requires { array_vec_len out.old + 46 ≤ ROOM }
    ensures { array_vec_len out.new ≤ array_vec_len out.old + 46 }
{
    match error {
        SpellingError::Empty => put(out, b"empty"),
        SpellingError::TooLong(n) => {
            put_number(out, n);
            put(out, b" characters");
        }
        SpellingError::NotHex(i) => {
            put(out, b"character ");
            put_number(out, i);
            put(out, b" is no hex digit");
        }
    }
}

// The code, and what it says.
fn describe_code<const ROOM: usize>(code: u32, out: &mut ArrayVec<u8, ROOM>)
    requires { array_vec_len out.old + 43 ≤ ROOM }
    ensures { array_vec_len out.new ≤ array_vec_len out.old + 43 }
{
    put_hex::<8, _>(out, u64::from(code));
    let Some(t) = type_of(code) else {
        put(out, b" refused 4\n");
        return;
    };
    let WkbType {
        kind,
        dimension,
        srid,
    } = t;
    put(out, b" ");
    // one digit, the same in hex
    put_hex::<1, _>(out, usize::from(kind) as u64);
    put(out, b" ");
    put(out, kind.name().as_bytes());
    put(out, b" ");
    put(out, dimension.name().as_bytes());
    if srid {
        put(out, b" srid\n");
    } else {
        put(out, b" no srid\n");
    }
}
