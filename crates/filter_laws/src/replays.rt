// Lists of calls performed on an empty filter table, and the laws of what then stands.
ghost use Rattle.std.specs.Prelude.{◌≡◌, ℕ, List};
ghost use Rattle.std.specs.Option.{option_map};
ghost use Rattle.filters.specs.Standing.{refusal, after, standing};
ghost use Rattle.filters.specs.Scans.{best, told, scan};
ghost use Rattle.filters.specs.declared.rows.Header.{Header};
ghost use Rattle.filter_table.specs.Tables.{held};
ghost use Rattle.filter_laws.specs.Histories.{History};
ghost use Rattle.filter_laws.specs.Relations.{Scans, SameFilters, Alike};
ghost use Rattle.filter_laws.specs.Runs.{Balanced, Bounded};

use fields::faults::Fault;
use filter_table::table::FilterTable;
use filters::calls::{Best, Call};
use filters::rows::Header;

// Performs a call; a refused call, an inspection and a search leave the table alone.
pub fn perform(table: &mut FilterTable, call: &Call)
    ensures { held table.new ≡ after (held table.old) call.now }
{
    match *call {
        Call::Add(row) => {
            let _ = table.add(row);
        }
        Call::Remove(identifier) => {
            let _ = table.remove(identifier);
        }
        Call::Inspect(..) | Call::Search(..) => {}
    }
}

// The table after a list of calls: in rank order, exactly the filters that were added and not since removed.
// Over the calls, the labels that came into use are those that were freed and those in use at the end.
pub fn replay(calls: &[Call]) -> FilterTable
    ensures stands { held result ≡ standing calls.now }
    ensures history { History calls.now }
    ensures balance { (order : List ℕ) → Balanced order calls.now }
{
    let mut table = FilterTable::empty();
    // a loop, since a fold would hand the table from turn to turn by value
    for call in calls {
        perform(&mut table, call);
    }
    table
}

// The best filter for a header after a list of calls, and the law of every scan of what then stands.
#[tactic(auto, using(crate::proofs::Scanning::scans_standing))]
pub fn best_after(calls: &[Call], header: &Header) -> Option<Best>
    ensures best { result ≡ option_map told (best (standing calls.now) header.now) }
    ensures scans { (h : Header) (n : ℕ) → Scans (standing calls.now) h n (scan (standing calls.now) h n) }
{
    replay(calls).best(header)
}

// Why a further call is refused after a list of calls; one that is accepted reports no more labels than there are places, and at least one combination.
#[tactic(auto, using(crate::proofs::Bounds::bounded))]
pub fn refusal_after(calls: &[Call], call: &Call) -> Option<Fault>
    ensures refusal { result ≡ refusal (standing calls.now) call.now }
    ensures bounds { Bounded calls.now call.now }
{
    replay(calls).refusal(call)
}

// The same after either of two lists of calls: where the same filters stand, everything is the same.
#[tactic(auto, using(crate::proofs::Equal::alike))]
pub fn refusals_after(
    first: &[Call],
    second: &[Call],
    call: &Call,
) -> (Option<Fault>, Option<Fault>)
    ensures refusals { result ≡ (refusal (standing first.now) call.now, refusal (standing second.now) call.now) }
    ensures alike { SameFilters first.now second.now → Alike first.now second.now }
{
    (refusal_after(first, call), refusal_after(second, call))
}
