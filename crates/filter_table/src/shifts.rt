// Rows of a table that stay in order: one goes in, or one is taken out, and those behind it move by one place.
// For rows of any sort in a plain array, as many of them in use as a count says; the filter table's own are an ArrayVec.
ghost use Rattle.std.specs.Prelude.{◌≡◌};
ghost use Rattle.filter_table.specs.Shifts.{opened, closed, taken};

pub use crate::table::CAPACITY;

// Puts a row at a position among the first rows, as many as count; nothing is done where there is no such position or no room.
pub fn insert_at<R: Copy>(rows: &mut [R; CAPACITY], count: usize, position: usize, row: R)
    ensures { rows.new ≡ opened rows.old count position row }
{
    if count >= CAPACITY {
        return;
    }
    if position > count {
        return;
    }
    let mut k = count;
    while k > position {
        rows[k] = rows[k - 1];
        k -= 1;
    }
    rows[position] = row;
}

// Takes out the row at a position of the first rows, as many as count, and answers it; nothing is done where there is no such row.
pub fn remove_at<R: Copy>(rows: &mut [R; CAPACITY], count: usize, position: usize) -> Option<R>
    ensures value { result ≡ taken rows.old count position }
    ensures rows { rows.new ≡ closed rows.old count position }
{
    if count > CAPACITY {
        return None;
    }
    if position >= count {
        return None;
    }
    let row = rows[position];
    for k in position..count - 1 {
        rows[k] = rows[k + 1];
    }
    Some(row)
}
