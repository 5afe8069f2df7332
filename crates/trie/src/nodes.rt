// The tables of a binary trie.
ghost use Rattle.std.specs.Prelude.{◌≡◌, ◌<◌};
ghost use Rattle.trie.specs.Trees.{bare, child};

use arrayvec::ArrayVec;
use fields::prefixes::Prefix;
use parts::marks::PLACES;

// How many bits an address has.
pub const BITS: usize = 32;

// The most nodes on a way down from the root, which is one of them.
pub const STEPS: usize = BITS + 1;

// As many non-empty bit strings as the prefixes of all places begin with at most.
pub const BELOW_ROOT: usize = PLACES * BITS;

pub const NODES: usize = BELOW_ROOT + 1;

// A node stands for a bit string and is named by its index in a table, since nothing is allocated. Its children stand for that
// string and one bit more, and the bit is their index; 0 is no child, since node 0 is the root, and nobody's child.
#[derive(Clone, Copy)]
pub struct Node {
    pub label: Option<u8>,
    pub children: [u16; 2],
}

impl Node {
    pub const BLANK: Node = Node {
        label: None,
        children: [0; 2],
    };

    // The child on a bit, if there is one.
    pub fn child(&self, bit: usize) -> Option<u16>
        requires { bit < 2 }
        ensures { result ≡ child self.now bit }
    {
        let number = self.children[bit];
        if number == 0 { None } else { Some(number) }
    }

    // Whether it has neither label nor child.
    pub fn is_bare(&self) -> bool
        ensures { result ≡ bare self.now }
    {
        self.label.is_none() && self.children.iter().all(|child| *child == 0)
    }
}

// What the places hold, the root, which is node 0, and the nodes below it, and those that are free.
#[derive(Drop)]
pub struct Tables {
    pub places: [Option<Prefix>; PLACES],
    pub nodes: [Node; NODES],
    pub free: ArrayVec<u16, BELOW_ROOT>,
}
