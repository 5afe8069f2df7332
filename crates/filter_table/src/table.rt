// The filter list as a table: the standing filters in rank order, each a row.
ghost use Rattle.std.specs.Prelude.{◌≡◌, true};
ghost use Rattle.filters.specs.Counting.{every};
ghost use Rattle.filters.specs.Filters.{lawful};

use arrayvec::ArrayVec;
use filters::rows::FilterRow;

pub mod checks;
pub mod counts;
pub mod edits;
pub mod scans;

// How many filters a table has room for.
pub const CAPACITY: usize = 96;

#[derive(Drop)]
pub struct FilterTable {
    rows: ArrayVec<FilterRow, CAPACITY>,
    ghost formed: { every lawful rows.items ≡ true },
}
