// Reading the filter table: what the scan of the standing filters gives.
ghost use Rattle.std.specs.Prelude.{◌≡◌, length};
ghost use Rattle.std.specs.Option.{option_map};
ghost use Rattle.fields.specs.Faults.{answer, unless};
ghost use Rattle.filters.specs.declared.calls.Call.TheVariants.{Search};
ghost use Rattle.filters.specs.Standing.{refusal};
ghost use Rattle.filters.specs.Scans.{best, told, listed, scan_answer, written};
ghost use Rattle.filter_table.specs.Tables.{held};

use crate::lists::{best_of, list_of};
use crate::table::FilterTable;
use crate::table::checks::check_search;
use fields::faults::Fault;
use filters::calls::{Best, Scanned};
use filters::rows::Header;

impl FilterTable {
    // Scans the standing filters: the best, and the identifiers of the listed ones from the start of the list, which is the caller's.
    pub fn scan(&self, header: &Header, most: u8, list: &mut [u16]) -> Result<Scanned, Fault>
        ensures result { result ≡ answer (refusal (held self.now) (Search header.now most (length list.old))) (scan_answer (held self.now) header.now most) }
        ensures list { list.new ≡ unless (refusal (held self.now) (Search header.now most (length list.old))) list.old (written (listed (held self.now) header.now most) list.old) }
    {
        check_search(most, list.len())?;
        let best = self.best(header);
        let listed = list_of(self.rows.as_slice(), header, most as usize, list);
        Ok(Scanned { best, listed })
    }

    // The best filter for a header.
    pub fn best(&self, header: &Header) -> Option<Best>
        ensures { result ≡ option_map told (best (held self.now) header.now) }
    {
        let row = best_of(self.rows.as_slice(), header)?;
        Some(Best {
            identifier: row.identifier,
            flow: row.flow,
        })
    }
}
