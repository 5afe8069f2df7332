// Changes to the tables: nodes that are taken for a prefix, and freed when no prefix needs them.
ghost use Rattle.std.specs.Prelude.{◌≡◌, ℕ, ◌+◌, ◌<◌, ◌≤◌, true, false, Some, None, ◌≢◌, slice_index_or, slice_set};
ghost use Rattle.trie.specs.Strings.{code, codes};
ghost use Rattle.trie.specs.Trees.{Good, Walked, Growing, Trimming};

use crate::nodes::{Node, Tables};
use crate::tree::Tree;
use crate::walk::bit_after;
use fields::kinds::Kind;
use fields::prefixes::Prefix;
use parts::marks::PLACES;

impl Tables {
    // Takes a free node for the next bit of a prefix.
    fn extend(&mut self, parent: u16, value: Prefix, depth: u8) -> u16
        requires within { depth < value.row.length }
        requires growing { ∥ Growing self.old value parent depth ∥₁ }
        ensures places { self.new.places ≡ self.old.places }
        ensures growing { ∥ Growing self.new value result (depth + 1) ∥₁ }
    {
        let bit = bit_after(value.row().address, depth);
        let node = self.free.pop().unwrap();
        self.nodes[node as usize] = Node::BLANK;
        self.nodes[parent as usize].children[bit] = node;
        node
    }

    // Takes free nodes for all bits of a prefix after the first `depth`, whose node there is, and answers the last node.
    fn grow(&mut self, node: u16, value: Prefix, depth: u8) -> u16
        requires within { depth ≤ value.row.length }
        requires growing { ∥ Growing self.old value node depth ∥₁ }
        ensures places { self.new.places ≡ self.old.places }
        ensures grown { ∥ Growing self.new value result value.row.length ∥₁ }
    {
        let mut last = node;
        // the depth is which bit of the prefix a turn is about
        for depth in depth..value.row().length {
            last = self.extend(last, value, depth);
        }
        last
    }

    // Frees the last node of a prefix's first `depth + 1` bits if it has neither label nor child, and says whether it did.
    fn snip(&mut self, path: &[u16], value: Prefix, depth: u8) -> bool
        requires within { depth < value.row.length }
        requires trimming { ∥ Trimming self.old value path.now (depth + 1) ∥₁ }
        ensures places { self.new.places ≡ self.old.places }
        ensures freed { result ≡ true → ∥ Trimming self.new value path.now depth ∥₁ }
        ensures kept { result ≡ false → ∥ Good self.new ∥₁ }
    {
        let parent = path[depth as usize] as usize;
        let last = path[depth as usize + 1];
        if !self.nodes[last as usize].is_bare() {
            return false;
        }
        self.nodes[parent].children[bit_after(value.row().address, depth)] = 0;
        self.free.push(last);
        true
    }

    // Frees the nodes of a prefix that nothing needs, from the last up.
    fn trim(&mut self, path: &[u16], value: Prefix)
        requires { ∥ Trimming self.old value path.now value.row.length ∥₁ }
        ensures sound { ∥ Good self.new ∥₁ }
        ensures places { self.new.places ≡ self.old.places }
    {
        // the depth is which bit of the prefix a turn is about
        for depth in (0..value.row().length).rev() {
            if !self.snip(path, value, depth) {
                return;
            }
        }
    }
}

impl Tree {
    // Puts a prefix that no place holds at an empty place, by the walk towards it.
    pub fn put(&mut self, place: u8, value: Prefix, path: &[u16])
        requires within { place < PLACES }
        requires walked { ∥ Walked self.old.tables value.row.address value.row.length path.now ∥₁ }
        requires vacant { slice_index_or self.old.tables.places place None ≡ None }
        requires new { (l : ℕ) → codes self.old.tables.places l ≢ code (Some value) }
        ensures { self.new.tables.places ≡ slice_set self.old.tables.places place (Some value) }
    {
        let depth = path.len() - 1;
        let last = self.tables.grow(path[depth], value, depth as u8);
        self.tables.nodes[last as usize].label = Some(place);
        self.tables.places[place as usize] = Some(value);
    }

    // Empties the place that holds a prefix.
    pub fn remove(&mut self, place: u8, value: Prefix)
        requires within { place < PLACES }
        requires held { slice_index_or self.old.tables.places place None ≡ Some value }
        ensures { self.new.tables.places ≡ slice_set self.old.tables.places place None }
    {
        let row = value.row();
        let path = self.walk(row.address, row.length);
        let path = path.as_slice();
        let last = path[row.length as usize];
        self.tables.nodes[last as usize].label = None;
        self.tables.places[place as usize] = None;
        self.tables.trim(path, value);
    }
}
