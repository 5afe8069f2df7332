// The trie of the prefixes that the places hold.
ghost use Rattle.std.specs.Prelude.{◌≡◌, ℕ, ◌+◌, ◌<◌, length, replicate, None, slice_index, slice_index_or};
ghost use Rattle.trie.specs.Trees.{Good};

use crate::nodes::{BELOW_ROOT, NODES, Node, Tables};
use arrayvec::ArrayVec;
use fields::prefixes::Prefix;
use parts::checks::entry_at;
use parts::marks::PLACES;

// Just the nodes that some held prefix needs are in use.
#[derive(Drop)]
pub struct Tree {
    pub tables: Tables,
    ghost sound: { ∥ Good tables ∥₁ },
}

// All nodes but the root.
fn all_below_root() -> ArrayVec<u16, BELOW_ROOT>
    ensures many { length result.items ≡ BELOW_ROOT }
    ensures rising { (i : ℕ) → i < BELOW_ROOT → slice_index result.items i ≡ i + 1 }
{
    ArrayVec::from(std::array::from_fn(|i| i as u16 + 1))
}

impl Tree {
    // Only a root.
    pub fn bare() -> Tree
        ensures { result.tables.places ≡ replicate PLACES None }
    {
        Tree {
            tables: Tables {
                places: [None; PLACES],
                nodes: [Node::BLANK; NODES],
                free: all_below_root(),
            },
        }
    }

    // The prefix that a place holds.
    pub fn held(&self, place: u8) -> Option<Prefix>
        ensures { result ≡ slice_index_or self.now.tables.places place None }
    {
        entry_at(&self.tables.places, place as usize)
    }

    // How many nodes below the root are not free.
    pub fn in_use(&self) -> usize
        ensures { result + length self.now.tables.free.items ≡ BELOW_ROOT }
    {
        self.tables.free.remaining_capacity()
    }
}
