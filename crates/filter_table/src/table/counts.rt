// How full the filter table is.
ghost use Rattle.std.specs.Prelude.{◌≡◌, ◌≤◌, length};
ghost use Rattle.filter_table.specs.Tables.{held};

use crate::table::FilterTable;

impl FilterTable {
    // How many filters stand.
    pub fn count(&self) -> usize
        ensures value { result ≡ length (held self.now) }
        ensures fits { result ≤ 96 }
    {
        self.rows.len()
    }
}
