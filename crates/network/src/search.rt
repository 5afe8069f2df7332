// Search along the nodes, from the labels found in the fields.
ghost use Rattle.std.specs.Prelude.{◌≡◌, ℕ, List, length, take, slice_index};
ghost use Rattle.std.specs.List.{AllByRecursion};
ghost use Rattle.parts.specs.Asked.{Succeeds};
ghost use Rattle.stores.specs.declared.pairs.Pair.{Pair};
ghost use Rattle.labelling.specs.declared.board.Board.{Board};
ghost use Rattle.labelling.specs.Boards.{Labels, member};
ghost use Rattle.network.specs.Nodes.{Filed, Nodes, First, OneLabel};
ghost use Rattle.labelling.specs.Lists.{found_in};
ghost use Rattle.network.specs.Searches.{found_at, AskedAlong, places_of, reached, pairs, pairs_by_rows, all_found};

use crate::asks::ask_node;
use crate::network::{Network, field_index};
use crate::searched::Searched;
use fields::faults::Fault;
use fields::orders::FIELDS;
use labelling::board::Board;
use labelling::found::Found;
use stores::pairs::Pair;
use stores::store::Store;

impl<S: Store> Network<S> {
    // Asks along the nodes, from the labels found in the fields.
    pub fn ask(&mut self, fields: &[Found; FIELDS]) -> Result<Searched, Fault>
        ensures asked { (fs : List Filed) (ns : List ℕ) (d : Board Pair S) → Nodes S.Told.shows self.old.nodes fs ns 5 → ((j : ℕ) → Labels (found_in fields.now j)) → Succeeds result (λ s. AskedAlong S.Told.shows S.Told.agrees d self.old.nodes self.new.nodes (found_at self.old.order.fields fields.now) ns 5 × (take s.found.count s.found.labels ≡ reached (places_of d self.old.nodes) (found_at self.old.order.fields fields.now) 5) × (s.asked ≡ pairs (places_of d self.old.nodes) (found_at self.old.order.fields fields.now) 5) × AllByRecursion (λ f. First f → member (slice_index f.along 5) (take s.found.count s.found.labels) ≡ all_found (found_at self.old.order.fields fields.now) f 5) fs) }
        ensures laws { (fs : List Filed) (ns : List ℕ) (d : Board Pair S) → Nodes S.Told.shows self.old.nodes fs ns 5 → AllByRecursion First fs → OneLabel fs 5 × ((found : ℕ → List ℕ) → pairs (places_of d self.old.nodes) found 5 ≡ pairs_by_rows found fs 5) }
        ensures order { self.new.order ≡ self.old.order }
    {
        let start = field_index(&self.order, 1);
        let mut found = fields[start];
        let mut asked = 0;
        for (k, node) in self.nodes.iter_mut().enumerate() {
            let next = field_index(&self.order, k + 2);
            let right = fields[next];
            let left = &found.labels[0..found.count];
            let searched = ask_node(node, left, &right.labels[0..right.count])?;
            found = searched.found;
            asked += searched.asked;
        }
        Ok(Searched { found, asked })
    }
}
