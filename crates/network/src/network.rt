// The network: five nodes in a row over any make of store, combining the fields in a formed order.
ghost use Rattle.std.specs.Prelude.{◌≡◌, ℕ, ◌+◌, ◌-◌, ◌<◌, ◌≤◌, List, [], ◌∷◌, ◌++◌, map, length, slice_index, slice_index_or};
ghost use Rattle.std.specs.List.{AllByRecursion};
ghost use Rattle.labels.specs.Labels.{occurrences};
ghost use Rattle.parts.specs.Asked.{Succeeds};
ghost use Rattle.stores.specs.Pairs.{same_pair};
ghost use Rattle.labelling.specs.Boards.{Labels};
ghost use Rattle.labelling.specs.declared.board.Board.{Board};
ghost use Rattle.stores.specs.declared.pairs.Pair.{Pair};
ghost use Rattle.network.specs.Nodes.{key_at, at_node, Filed, filed, First, Nodes, fresh, arranged, Untold, AsksKept, rows_in_use};

use fields::faults::Fault;
use fields::orders::{FIELDS, NetworkOrder};
use labelling::board::Board;
use labelling::entered::Entered;
use stores::pairs::Pair;
use stores::store::Store;

// How many nodes combine the fields.
pub const NODES: usize = FIELDS - 1;

// The standing filters lie elsewhere, so no invariant can speak of them: each call says for which filters it holds.
#[derive(Drop)]
pub struct Network<S> {
    pub(crate) order: NetworkOrder,
    pub(crate) nodes: [Board<Pair, S>; NODES],
}

// The field at a position of the order, 1 and on, counted from 0.
pub(crate) fn field_index(order: &NetworkOrder, position: usize) -> usize
    ensures value { 1 ≤ position → position ≤ 6 → result ≡ slice_index order.now.fields (position - 1) - 1 }
    ensures within { result < 6 }
{
    order
        .field_at(position)
        .map_or(0, |field| field as usize - 1)
}

impl<S: Store> Network<S> {
    // A network in this order over five stores, emptied, with every label free.
    // Five stores, one by one: `map` over an array of them wants that a store may be let go (it asks `S: Drop`).
    pub fn make(order: NetworkOrder, a: S, b: S, c: S, d: S, e: S) -> Network<S>
        ensures stands { Nodes S.Told.shows result.nodes [] [] 5 }
        ensures asked { (j : ℕ) (x : Board Pair S) → j < 5 → S.Told.agrees (slice_index_or result.nodes j x).part [] }
        ensures order { result.order ≡ order }
    {
        let first = Board::make(a);
        let second = Board::make(b);
        let third = Board::make(c);
        let fourth = Board::make(d);
        let fifth = Board::make(e);
        Network {
            order,
            nodes: [first, second, third, fourth, fifth],
        }
    }

    // Gives a filter with these labels in its fields its labels along the nodes, before which its first field's label stands.
    pub fn enter(&mut self, fields: [u8; FIELDS]) -> Result<Entered, Fault>
        ensures entered { (before after : List Filed) (ns : List ℕ) → Nodes S.Told.shows self.old.nodes (before ++ after) ns 5 → length (before ++ after) < 96 → Labels fields → Succeeds result (λ e. Nodes S.Told.shows self.new.nodes (before ++ filed (arranged self.old.order.fields fields) e.labels ∷ after) ns 5 × (e.new ≡ fresh (before ++ after) (filed (arranged self.old.order.fields fields) e.labels) 5) × Labels e.labels × First (filed (arranged self.old.order.fields fields) e.labels) × Untold self.old.nodes self.new.nodes (before ++ after) (filed (arranged self.old.order.fields fields) e.labels) 5) }
        ensures asked { AsksKept S.Told.agrees self.old.nodes self.new.nodes }
        ensures order { self.new.order ≡ self.old.order }
    {
        let start = field_index(&self.order, 1);
        let mut labels = [fields[start]; FIELDS];
        let mut new = 0;
        for (k, node) in self.nodes.iter_mut().enumerate() {
            let next = field_index(&self.order, k + 2);
            let key = Pair {
                left: labels[k],
                right: fields[next],
            };
            let acquired = node.enter(key)?;
            labels[k + 1] = acquired.label;
            new += acquired.new as u8;
        }
        Ok(Entered { labels, new })
    }

    // Gives a filter's labels along the nodes back, and says how many were freed.
    pub fn leave(&mut self, labels: [u8; FIELDS]) -> Result<u8, Fault>
        ensures left { (before after : List Filed) (fields : List ℕ) (ns : List ℕ) → Nodes S.Told.shows self.old.nodes (before ++ filed fields labels ∷ after) ns 5 → Succeeds result (λ freed. Nodes S.Told.shows self.new.nodes (before ++ after) ns 5 × (freed ≡ fresh (before ++ after) (filed fields labels) 5) × Untold self.old.nodes self.new.nodes (before ++ after) (filed fields labels) 5) }
        ensures asked { AsksKept S.Told.agrees self.old.nodes self.new.nodes }
        ensures order { self.new.order ≡ self.old.order }
    {
        let mut freed = 0;
        for (k, node) in self.nodes.iter_mut().enumerate() {
            let last = node.leave(labels[k + 1])?;
            freed += last as u8;
        }
        Ok(freed)
    }

    // How many standing filters have a label at a node, counted from 0; 0 where there is no such node.
    pub fn count(&self, node: usize, label: u8) -> u8
        ensures { (fs : List Filed) (ns : List ℕ) → Nodes S.Told.shows self.now.nodes fs ns 5 → node < 5 → AllByRecursion (λ f. slice_index f.along (node + 1) ≡ label → result ≡ occurrences same_pair (key_at node f) (map (at_node node) fs)) fs }
    {
        match self.nodes.get(node) {
            Some(node) => node.table.count(label),
            None => 0,
        }
    }

    // How many combination labels are in use, at all nodes together.
    pub fn in_use(&self) -> usize
        ensures { (fs : List Filed) (ns : List ℕ) → Nodes S.Told.shows self.now.nodes fs ns 5 → AllByRecursion First fs → result ≡ rows_in_use fs 5 }
    {
        // added up in a loop, since of what a generic closure answers the bound that a sum wants is not known
        let mut total = 0;
        for node in &self.nodes {
            total += node.table.in_use();
        }
        total
    }
}
