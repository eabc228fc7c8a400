// Bytes of text, put behind an answer that is being made. The contracts say how much room they take, so that a caller shows that its answer
// fits; of `write!` no contract says that it did not fail.
ghost use Rattle.std.specs.Prelude.{◌≡◌, ◌+◌, ◌≤◌, ◌++◌, length};
ghost use Rattle.arrayvec.specs.ArrayVec.{array_vec_len};

use arrayvec::ArrayVec;

pub fn put<const ROOM: usize>(out: &mut ArrayVec<u8, ROOM>, text: &[u8])
    requires { array_vec_len out.old + length text.now ≤ ROOM }
    ensures items { out.new.items ≡ out.old.items ++ text.now }
    ensures len { array_vec_len out.new ≡ array_vec_len out.old + length text.now }
{
    if out.try_extend_from_slice(text).is_err() {
        unreachable!();
    }
}

// In decimal.
pub fn put_number<const ROOM: usize>(out: &mut ArrayVec<u8, ROOM>, number: usize)
    requires { array_vec_len out.old + 20 ≤ ROOM }
    ensures { array_vec_len out.new ≤ array_vec_len out.old + 20 }
{
    let mut digits = [0; 20];
    let n = io::decimal(number as u64, &mut digits);
    put(out, &digits[..n]);
}

// The lowest W hex digits, in upper case.
pub fn put_hex<const W: usize, const ROOM: usize>(out: &mut ArrayVec<u8, ROOM>, number: u64)
    requires { array_vec_len out.old + W ≤ ROOM }
    ensures { array_vec_len out.new ≡ array_vec_len out.old + W }
{
    let mut digits = [0; W];
    let mut rest = number;
    for digit in digits.iter_mut().rev() {
        *digit = b"0123456789ABCDEF"[(rest % 16) as usize];
        rest /= 16;
    }
    put(out, &digits);
}
