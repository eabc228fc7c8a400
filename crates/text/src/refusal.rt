// A refusal by its number and place, as it shows itself.
ghost use Rattle.std.specs.Prelude.{◌+◌, ◌≤◌};
ghost use Rattle.arrayvec.specs.ArrayVec.{array_vec_len};

use crate::put::{put, put_number};
use arrayvec::ArrayVec;
use meaning::Refusal;

pub fn put_refusal<const ROOM: usize>(out: &mut ArrayVec<u8, ROOM>, refusal: Refusal)
    requires { array_vec_len out.old + 49 ≤ ROOM }
    ensures { array_vec_len out.new ≤ array_vec_len out.old + 49 }
{
    let (number, place) = refusal.numbered();
    put(out, b"refused ");
    put_number(out, number);
    put(out, b" ");
    put_number(out, place);
}
