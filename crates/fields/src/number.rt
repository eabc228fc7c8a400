// Numbers of W bytes in either byte order. One loop reads and one writes, at any width. Each width and order is a function of its own, whose
// W loads or stores become one before the two orders meet in a caller. `from_be_bytes` and its like would be one function for each width; an
// array taken by `first_chunk` in place of a slice and an offset costs a test of the length at each read.
ghost use Rattle.std.specs.Prelude.{◌≡◌, ◌++◌, ◌+◌, ◌^◌, ◌≤◌, ◌<◌, length, take, drop};
ghost use Rattle.meaning.specs.Number.{number_at, bytes_of};
ghost use Rattle.fields.specs.Place.{order_if, place_of};

use meaning::{Endianness, Offset};

// Where the digit stands that has n digits above it.
fn place<const BIG: bool>(width: usize, n: usize) -> usize
    requires { n < width }
    ensures { (result ≡ place_of (order_if BIG) width n) × (result < width) }
{
    if BIG { n } else { width - 1 - n }
}

// The lowest digit first, each times the value p of its place: in such a sum the loads are joined.
fn number<const W: usize, const BIG: bool>(s: &[u8], at: Offset) -> u64
    requires { (at.0 + W ≤ length s.now) × (W ≤ 8) }
    ensures { (result ≡ number_at (order_if BIG) W s.now at.0) × (result < 256 ^ W) }
{
    let mut v = 0;
    let mut p = 1;
    for n in (0..W).rev() {
        v += u64::from(s[at.0 + place::<BIG>(W, n)]) * p;
        // behind the highest of eight digits there is no place
        p = p.wrapping_mul(256);
    }
    v
}

// The number in the W bytes at an offset.
pub fn read<const W: usize>(s: &[u8], at: Offset, order: Endianness) -> u64
    requires { (at.0 + W ≤ length s.now) × (W ≤ 8) }
    ensures { (result ≡ number_at order W s.now at.0) × (result < 256 ^ W) }
{
    match order {
        Endianness::BigEndian => number::<W, true>(s, at),
        Endianness::LittleEndian => number::<W, false>(s, at),
    }
}

// The lowest digit first.
fn put<const W: usize, const BIG: bool>(s: &mut [u8], at: Offset, x: u64)
    requires { at.0 + W ≤ length s.old }
    ensures { s.new ≡ take at.0 s.old ++ (bytes_of (order_if BIG) W x ++ drop (at.0 + W) s.old) }
{
    let mut y = x;
    for n in (0..W).rev() {
        s[at.0 + place::<BIG>(W, n)] = (y % 256) as u8;
        y /= 256;
    }
}

// Puts the lowest W bytes of a number at an offset.
pub fn write<const W: usize>(s: &mut [u8], at: Offset, order: Endianness, x: u64)
    requires { at.0 + W ≤ length s.old }
    ensures { s.new ≡ take at.0 s.old ++ (bytes_of order W x ++ drop (at.0 + W) s.old) }
{
    match order {
        Endianness::BigEndian => put::<W, true>(s, at, x),
        Endianness::LittleEndian => put::<W, false>(s, at, x),
    }
}
