// The line that answers a question.
ghost use Rattle.std.specs.Prelude.{◌+◌, ◌*◌, ◌≤◌, length, ◌≡◌, OnErr};
ghost use Rattle.arrayvec.specs.ArrayVec.{array_vec_len};
ghost use Rattle.vectors.specs.Room.{PartFits};

use crate::question::Question;
use arrayvec::ArrayVec;
use meaning::{Coordinate, Endianness, Form, Refusal};
use questions::check::check_table;
use questions::child::child;
use questions::coordinate::coordinate;
use questions::coords::{coords_form, coords_slice};
use questions::ordinate::ordinate;
use questions::srid::srid;
use text::put::{put, put_hex, put_number};
use text::refusal::put_refusal;

// The longest is a coordinate part, of two bytes for each of its own, and 6.
pub fn answer<const ROOM: usize>(
    question: Question,
    buf: &[u8],
    table: &[u64],
    out: &mut ArrayVec<u8, ROOM>,
)
    requires { PartFits question (length buf.now) × (array_vec_len out.old + 10262 ≤ ROOM) }
    ensures { array_vec_len out.new ≤ array_vec_len out.old + 10262 }
{
    if let Err(refusal) = answered(question, buf, table, out) {
        put_refusal(out, refusal);
    }
    put(out, b"\n");
}

// The answer, unless the question is refused; then nothing is written.
fn answered<const ROOM: usize>(
    question: Question,
    buf: &[u8],
    table: &[u64],
    out: &mut ArrayVec<u8, ROOM>,
) -> Result<(), Refusal>
    requires { PartFits question (length buf.now) × (array_vec_len out.old + 10261 ≤ ROOM) }
    ensures room { array_vec_len out.new ≤ array_vec_len out.old + 10261 }
    ensures err { OnErr result (out.new ≡ out.old) }
{
    match question {
        Question::Check => {
            let listed = if check_table(buf, table) { "yes" } else { "no" };
            put(out, listed.as_bytes());
        }
        Question::Ordinate { row, index, axis } => {
            put_hex::<16, _>(out, ordinate(buf, table, row, index, axis)?);
        }
        Question::Coordinate { row, index } => {
            put_coordinate(coordinate(buf, table, row, index)?, out);
        }
        Question::Part(row) => put_part(coords_slice(buf, table, row), out),
        Question::Form(row) => {
            let Form { order, count } = coords_form(buf, table, row)?;
            match order {
                Endianness::BigEndian => put(out, b"big "),
                Endianness::LittleEndian => put(out, b"little "),
            }
            put_number(out, count);
        }
        Question::Child { row, index } => {
            let found = child(table, row, index)?.0;
            put(out, b"row ");
            put_number(out, found);
        }
        Question::Srid => match srid(buf, table)? {
            Some(number) => {
                put(out, b"srid ");
                put_number(out, number as usize);
            }
            None => put(out, b"none"),
        },
    }
    Ok(())
}

// The dimension's number and the bits of each float, of which a NaN is just a NaN.
fn put_coordinate<const ROOM: usize>(c: Coordinate, out: &mut ArrayVec<u8, ROOM>)
    requires { array_vec_len out.old + 88 ≤ ROOM }
    ensures { array_vec_len out.new ≤ array_vec_len out.old + 88 }
{
    put_number(out, usize::from(c.dimension));
    put_float(c.x, out);
    put_float(c.y, out);
    put_float(c.z, out);
    put_float(c.m, out);
}

fn put_float<const ROOM: usize>(float: f64, out: &mut ArrayVec<u8, ROOM>)
    requires { array_vec_len out.old + 17 ≤ ROOM }
    ensures { array_vec_len out.new ≤ array_vec_len out.old + 17 }
{
    put(out, b" ");
    if float.is_nan() {
        put(out, b"nan");
    } else {
        put_hex::<16, _>(out, float.to_bits());
    }
}

fn put_part<const ROOM: usize>(part: &[u8], out: &mut ArrayVec<u8, ROOM>)
    requires { array_vec_len out.old + 6 + 2 * length part.now ≤ ROOM }
    ensures { array_vec_len out.new ≤ array_vec_len out.old + 6 + 2 * length part.now }
{
    put(out, b"part ");
    if part.is_empty() {
        put(out, b"-");
    }
    put_bytes(part, out);
}

fn put_bytes<const ROOM: usize>(bytes: &[u8], out: &mut ArrayVec<u8, ROOM>)
    requires { array_vec_len out.old + 2 * length bytes.now ≤ ROOM }
    ensures { array_vec_len out.new ≤ array_vec_len out.old + 2 * length bytes.now }
{
    for &byte in bytes {
        put_hex::<2, _>(out, u64::from(byte));
    }
}
