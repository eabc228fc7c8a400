// The two words of a row. Each field is a digit: sums and products put a word together, quotients and remainders take it apart.
// Word A, by each field's lowest bit: kind 61, dimension 59, order 58, SRID flag 57, level 51, start 20, end 0.
// Word B: count 44, subtree 24, body 4.
ghost use Rattle.std.specs.Prelude.{◌≡◌, ◌<◌};
ghost use Rattle.meaning.specs.Table.{fields_a, fields_b, word_a, word_b, Fit, fields_of, rows_of, fetch};

use crate::code::{dimension_of, kind_of, order_of};
use meaning::{Offset, Row, RowFields};

#[tactic(auto, unfolding(meaning::specs::Table::pack, meaning::specs::Table::sum))]
pub fn word_a(f: RowFields) -> u64
    requires { Fit (fields_a f) }
    ensures { result ≡ word_a f }
{
    let word = usize::from(f.kind) * 0x2000_0000_0000_0000
        + usize::from(f.dimension) * 0x0800_0000_0000_0000
        + usize::from(f.order) * 0x0400_0000_0000_0000
        + usize::from(f.srid) * 0x0200_0000_0000_0000
        + f.level * 0x0008_0000_0000_0000
        + f.start.0 * 0x10_0000
        + f.end.0;
    word as u64
}

#[tactic(auto, unfolding(meaning::specs::Table::pack, meaning::specs::Table::sum))]
pub fn word_b(f: RowFields) -> u64
    requires { Fit (fields_b f) }
    ensures { result ≡ word_b f }
{
    let word = f.count * 0x1000_0000_0000 + f.subtree * 0x100_0000 + f.body.0 * 0x10;
    word as u64
}

#[tactic(auto, using(crate::proofs::Parts::unpack_parts), unfolding(crate::proofs::Parts::parts, meaning::specs::Table::sum))]
pub fn fields_of(a: u64, b: u64) -> RowFields
    ensures { result ≡ fields_of a b }
{
    let x = a as usize;
    let y = b as usize;
    RowFields {
        kind: kind_of(x / 0x2000_0000_0000_0000),
        dimension: dimension_of(x / 0x0800_0000_0000_0000 % 0x4),
        order: order_of(x / 0x0400_0000_0000_0000 % 0x2),
        srid: x / 0x0200_0000_0000_0000 % 0x2 == 1,
        level: x / 0x0008_0000_0000_0000 % 0x40,
        start: Offset(x / 0x10_0000 % 0x10_0000),
        end: Offset(x % 0x10_0000),
        count: y / 0x1000_0000_0000,
        subtree: y / 0x100_0000 % 0x10_0000,
        body: Offset(y / 0x10 % 0x10_0000),
    }
}

pub fn fetch(table: &[u64], row: Row) -> RowFields
    requires { row.0 < rows_of table.now }
    ensures { result ≡ fetch table.now row.0 }
{
    let i = 2 * row.0;
    fields_of(table[i], table[i + 1])
}
