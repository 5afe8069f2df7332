// Tables of plain rows that their owner supplies.
ghost use Rattle.std.specs.Prelude.{◌≡◌, ◌≤◌, List, length, slice_set};
ghost use Rattle.fields.specs.Faults.{answer, answer_by};
ghost use Rattle.parts.specs.Meaning.{list_fault};

use fields::faults::Fault;
use parts::checks::{check_room, put_at};

// What an engine wants of a table: at least 96 rows, to be read and put.
// A trait, since a struct with a `&mut` slice beside other fields is not covered when it is handed on whole.
pub trait Rows<R: Copy> {
    // all rows, also those past the 96th
    ghost items: { Self → List R };

    ghost wide: { (s : Self) → 96 ≤ length (items s) };

    fn rows(&self) -> &[R]
        ensures { result.now ≡ items self.now };

    fn put(&mut self, place: usize, row: R)
        ensures { items self.new ≡ slice_set (items self.old) place row };
}

// A slice of at least 96 rows.
#[derive(Drop)]
pub struct RowTable<'a, R: Copy> {
    rows: &'a mut [R],
    ghost wide: { 96 ≤ length rows.now },
}

impl<'a, R: Copy> RowTable<'a, R> {
    // The table of exactly these rows, as they are.
    pub fn form(rows: &'a mut [R]) -> Result<RowTable<'a, R>, Fault>
        ensures { answer_by (λ t. t.rows.now) result ≡ answer (list_fault (length rows.old)) rows.old }
    {
        check_room(rows)?;
        Ok(RowTable::checked(rows))
    }

    // The same for rows that were checked, which cannot be refused.
    pub fn checked(rows: &'a mut [R]) -> RowTable<'a, R>
        requires { 96 ≤ length rows.old }
        ensures { result.rows.now ≡ rows.old }
    {
        RowTable { rows }
    }
}

impl<'a, R: Copy> Rows<R> for RowTable<'a, R> {
    ghost items = { λ s. s.rows.now };

    ghost wide = { λ s. s.wide };

    fn rows(&self) -> &[R] {
        self.rows
    }

    fn put(&mut self, place: usize, row: R) {
        put_at(self.rows, place, row);
    }
}
