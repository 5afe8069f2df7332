// Walks from the root towards an address, one bit a step.
ghost use Rattle.std.specs.Prelude.{◌≡◌, ℕ, ◌<◌, ◌≤◌, false, ◌||◌, Some, ◌==◌, slice_index_or};
ghost use Rattle.trie.specs.Strings.{bit_after, code, codes};
ghost use Rattle.trie.specs.Trees.{is, hits, Walked};

use crate::nodes::{BITS, STEPS};
use crate::tree::Tree;
use arrayvec::ArrayVec;
use fields::kinds::Kind;
use fields::prefixes::Prefix;
use parts::marks::{PLACES, mark};

// The bit of an address that follows its first `depth`.
pub fn bit_after(address: u32, depth: u8) -> usize
    requires { depth < BITS }
    ensures bit { result ≡ bit_after address depth }
    ensures below { result < 2 }
{
    ((address >> (31 - depth)) % 2) as usize
}

impl Tree {
    // The nodes on the way towards the first `length` bits of an address, as far as there are nodes, the root first.
    pub fn walk(&self, address: u32, length: u8) -> ArrayVec<u16, STEPS>
        requires { length ≤ BITS }
        ensures { ∥ Walked self.now.tables address length result.items ∥₁ }
    {
        let mut path = ArrayVec::new();
        let mut node = 0;
        path.push(node);
        // the depth is which bit of the address a turn is about
        for depth in 0..length {
            let bit = bit_after(address, depth);
            let Some(child) = self.tables.nodes[node as usize].child(bit) else {
                return path;
            };
            node = child;
            path.push(node);
        }
        path
    }

    // The label of the place that holds a prefix, by the walk towards it.
    pub fn holder(&self, value: Prefix, path: &[u16]) -> Option<u8>
        requires { ∥ Walked self.now.tables value.row.address value.row.length path.now ∥₁ }
        ensures { (l : ℕ) → is result l ≡ (codes self.now.tables.places l == code (Some value)) }
    {
        let node = *path.get(value.row().length as usize)?;
        self.tables.nodes[node as usize].label
    }

    // Marks the labels of all prefixes that the address begins with.
    pub fn mark_path(&self, address: u32, marks: &mut [bool; PLACES])
        ensures { (l : ℕ) → l < PLACES → slice_index_or marks.new l false ≡ (slice_index_or marks.old l false || hits self.now.tables.places address l) }
    {
        let path = self.walk(address, BITS as u8);
        for node in path.as_slice() {
            mark(marks, self.tables.nodes[*node as usize].label);
        }
    }
}
