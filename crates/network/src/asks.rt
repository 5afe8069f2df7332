// Asking a node: every pair of a left label found and a right label found, once.
ghost use Rattle.std.specs.Prelude.{◌≡◌, ℕ, ◌*◌, ◌≤◌, List, length, take, IfOk};
ghost use Rattle.labels.specs.Labels.{keys, Standing};
ghost use Rattle.labelling.specs.Boards.{Stands, Labels};
ghost use Rattle.parts.specs.Asked.{Questioned, Succeeds};
ghost use Rattle.parts.specs.Meaning.{Meaning, meaning, find as label_of};
ghost use Rattle.stores.specs.Pairs.{same_pair};
ghost use Rattle.stores.specs.declared.pairs.Pair.{Pair};
ghost use Rattle.network.specs.Products.{Crossed, row, marks_after};

use crate::searched::Searched;
use fields::faults::Fault;
use labelling::board::Board;
use labelling::found::Found;
use parts::marks::{PLACES, mark, write_marked};
use stores::pairs::Pair;
use stores::store::Store;

// Asks the pairs of one left label, and marks the labels found.
fn ask_row<S: Store>(
    store: &mut S,
    a: u8,
    right: &[u8],
    marks: &mut [bool; PLACES],
) -> Result<(), Fault>
    ensures { (m : Meaning Pair) → S.Told.shows store.old m → a ≤ 95 → Labels right.now → Succeeds result (λ _. Questioned S.Told.shows S.Told.agrees store.old store.new m (row a right.now) × (marks.new ≡ marks_after (label_of same_pair m.places) marks.old (row a right.now))) }
{
    for b in right {
        let label = store.find(a, *b)?;
        mark(marks, label);
    }
    Ok(())
}

// Asks every pair of a left and a right label, both lists as slices, since what was found is the first part of an array.
fn ask_pairs<S: Store>(store: &mut S, left: &[u8], right: &[u8]) -> Result<Searched, Fault>
    requires left { length left.now ≤ 96 }
    requires right { length right.now ≤ 96 }
    ensures crossed { (m : Meaning Pair) → S.Told.shows store.old m → Labels left.now → Labels right.now → Succeeds result (λ x. Crossed S.Told.shows S.Told.agrees store.old store.new m left.now right.now (take x.found.count x.found.labels) x.asked) }
    ensures few { IfOk result (λ x. x.asked ≤ 96 * 96) }
{
    let mut marks = [false; PLACES];
    for a in left {
        ask_row(store, *a, right, &mut marks)?;
    }
    let mut labels = [0u8; PLACES];
    let count = write_marked(&marks, &mut labels)?;
    Ok(Searched {
        found: Found { labels, count },
        asked: left.len() * right.len(),
    })
}

// Asks every pair of a left and a right label at a node.
pub(crate) fn ask_node<S: Store>(
    node: &mut Board<Pair, S>,
    left: &[u8],
    right: &[u8],
) -> Result<Searched, Fault>
    requires left { length left.now ≤ 96 }
    requires right { length right.now ≤ 96 }
    ensures crossed { (fs : List (Standing Pair)) (n : ℕ) → Stands same_pair S.Told.shows node.old.table.slots node.old.part fs n → Labels left.now → Labels right.now → Succeeds result (λ x. Crossed S.Told.shows S.Told.agrees node.old.part node.new.part (meaning (keys node.old.table.slots) n) left.now right.now (take x.found.count x.found.labels) x.asked) }
    ensures kept { node.new.table ≡ node.old.table }
    ensures few { IfOk result (λ x. x.asked ≤ 96 * 96) }
{
    ask_pairs(&mut node.part, left, right)
}
