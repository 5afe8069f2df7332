// The stores that chain their places under a label of their pairs; the list store chains under the left label.
ghost use Rattle.std.specs.Prelude.{◌≡◌, ℕ, ◌<◌, ◌≤◌, List, length, IfSome, None, slice_index_or};
ghost use Rattle.parts.specs.Meaning.{Meaning, nothing, find as label_of};
ghost use Rattle.stores.specs.declared.pairs.Pair.{Pair};
ghost use Rattle.stores.specs.Pairs.{same_pair, Within};
ghost use Rattle.stores.specs.Places.{Placed};
ghost use Rattle.stores.specs.Stored.{Shows};
ghost use Rattle.stores.specs.Held.{ChainLeads, Walked};
ghost use Rattle.std.proofs.Common.{rules};

use crate::chains::Chains;
use crate::index::Index;
use crate::indexed::IndexedStore;
use crate::pairs::Pair;
use parts::marks::PLACES;

// Which label of a pair its place is chained under.
pub trait ChainKey: Copy {
    ghost key: { Pair → ℕ };

    fn key_of(pair: Pair) -> u8
        ensures { result ≡ key pair };

    ghost within: { (p : Pair) → p.left < 96 → p.right < 96 → key p < 96 };
}

#[derive(Clone, Copy)]
pub struct ByLeft;

impl ChainKey for ByLeft {
    ghost key = { λ p. p.left };

    ghost within = { Prim.search rules };

    fn key_of(pair: Pair) -> u8 {
        pair.left
    }
}

// The chains of the places, each place under the key of its pair.
#[derive(Drop)]
pub struct ChainIndex<K: ChainKey> {
    by: K,
    chains: Chains,
}

pub type ChainStore<K> = IndexedStore<ChainIndex<K>>;

pub type ListStore = ChainStore<ByLeft>;

impl<K: ChainKey> Index for ChainIndex<K> {
    ghost leads = { ChainLeads K.ChainKey.key };

    // by the chain of the pair's key and no other
    ghost reached = { λ s places pair found. Walked K.ChainKey.key s.chains places pair found };

    fn empty(&mut self) {
        self.chains = Chains::empty();
    }

    fn enter(&mut self, pair: Pair, place: u8) {
        self.chains.link(K::key_of(pair), place);
    }

    fn leave(&mut self, pair: Pair, place: u8) {
        self.chains.unlink(K::key_of(pair), place);
    }

    fn find(&self, pairs: &[Option<Pair>; PLACES], pair: Pair) -> Option<u8> {
        self.chains.find(K::key_of(pair), pairs, pair)
    }
}

impl<K: ChainKey> IndexedStore<ChainIndex<K>> {
    pub fn new(by: K) -> ChainStore<K>
        ensures held { Shows (ChainLeads K.ChainKey.key) result nothing }
        ensures asked { result.asked ≡ 0 }
    {
        IndexedStore::over(ChainIndex {
            by,
            chains: Chains::empty(),
        })
    }

    // The label of a pair, as a store is asked for it: no other chain than the one of the pair's key is walked.
    pub fn walk(&self, pair: Pair) -> Option<u8>
        ensures walked { (m : Meaning Pair) → Shows (ChainLeads K.ChainKey.key) self.now m → Walked K.ChainKey.key self.now.index.chains m.places pair result }
        ensures found { (m : Meaning Pair) → Shows (ChainLeads K.ChainKey.key) self.now m → result ≡ label_of same_pair m.places pair }
        ensures below { IfSome result (λ l. l < 96) }
    {
        self.look_up(pair)
    }
}
