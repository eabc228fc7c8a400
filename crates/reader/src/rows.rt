// What a walk does with the rows of what it walks over: it counts them, fills a table with them, or compares them with a table's.
ghost use Rattle.std.specs.Prelude.{◌≡◌, ◌&&◌, refl};
ghost use Rattle.std.proofs.Common.{ap};
ghost use Rattle.meaning.specs.Table.{RowFits};
ghost use Rattle.reader.specs.Rows.{Lists, AnyOrder, put_row, has_row};
ghost use Rattle.reader.specs.Orders.{put_swap, has_swap};

use fields::words::{word_a, word_b};
use meaning::{Row, RowFields};

pub trait Rows {
    // what it is once a row is listed
    ghost listed: { Lists Self };

    // A parent's row is known, and listed, after those below it; where it stands doesn't change.
    ghost any_order: { AnyOrder listed };

    fn list(&mut self, row: Row, fields: RowFields)
        requires { RowFits fields }
        ensures { self.new ≡ listed self.old row.0 fields };
}

// How many there are is what the walk says itself.
#[derive(Drop)]
pub struct Count;

impl Rows for Count {
    ghost listed = { λ s _ _. s };

    ghost any_order = { λ s i j f g lt. refl };

    fn list(&mut self, _row: Row, _fields: RowFields) {}
}

// Each row is put where the table has it.
#[derive(Drop)]
pub struct Fill<'a> {
    pub table: &'a mut [u64],
}

impl Rows for Fill<'_> {
    ghost listed = { λ s i f. record s { table = record s.table { now = put_row s.table.now i f } } };

    ghost any_order = { λ s i j f g lt. ap (λ t. record s { table = record s.table { now = t } }) (put_swap s.table.now i j f g lt) };

    fn list(&mut self, row: Row, fields: RowFields) {
        let i = row.0;
        if i < self.table.len() / 2 {
            self.table[2 * i] = word_a(fields);
            self.table[2 * i + 1] = word_b(fields);
        }
    }
}

// Whether the table has each row that it has room for.
#[derive(Drop)]
pub struct Compare<'a> {
    pub table: &'a [u64],
    pub same: bool,
}

impl Rows for Compare<'_> {
    ghost listed = { λ s i f. record s { same = s.same && has_row s.table.now i f } };

    ghost any_order = { λ s i j f g lt. ap (λ b. record s { same = b }) (has_swap s.table.now i j f g s.same) };

    fn list(&mut self, row: Row, fields: RowFields) {
        let i = row.0;
        if i < self.table.len() / 2 {
            self.same = self.same
                && self.table[2 * i] == word_a(fields)
                && self.table[2 * i + 1] == word_b(fields);
        }
    }
}
