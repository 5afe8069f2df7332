// A store with an index: pairs at their places, and what leads to the place of each.
ghost use Rattle.std.specs.Prelude.{◌≡◌, ◌%◌, ◌^◌, ◌<◌, length, replicate, IfSome, None};
ghost use Rattle.parts.specs.Asked.{Agrees};
ghost use Rattle.parts.specs.Meaning.{Meaning, nothing, find as label_of};
ghost use Rattle.stores.specs.declared.pairs.Pair.{Pair};
ghost use Rattle.stores.specs.Pairs.{same_pair, Within};
ghost use Rattle.stores.specs.Stored.{Shows};
ghost use Rattle.stores.specs.Proper.{stored_proper};

use crate::index::Index;
use crate::pairs::Pair;
use crate::store::Store;
use fields::faults::Fault;
use parts::checks::{check_clear, check_labels, check_set, entry_at, put_at};
use parts::marks::PLACES;
use parts::told::Told;

#[derive(Drop)]
pub struct IndexedStore<I: Index> {
    pub(crate) index: I,
    pub(crate) pairs: [Option<Pair>; PLACES],
    asked: u32,
}

impl<I: Index> IndexedStore<I> {
    // A store that holds nothing, by an index that leads nowhere.
    pub(crate) fn over(index: I) -> IndexedStore<I>
        requires { I.Index.leads index (replicate 96 None) }
        ensures held { Shows I.Index.leads result nothing }
        ensures asked { result.asked ≡ 0 }
    {
        IndexedStore {
            index,
            pairs: [None; PLACES],
            asked: 0,
        }
    }

    // How often it was asked since it was emptied, modulo 2^32.
    // Each part counts its own questions; a method of `Told` would leave open at a scan engine for which kind of value.
    pub fn asked_number(&self) -> u32
        ensures value { result ≡ self.now.asked }
        ensures counts { (m : Meaning Pair) → Shows I.Index.leads self.now m → result ≡ m.asked }
    {
        self.asked
    }

    // The label of a pair, by the index, and how the index came to it. Set and find look a pair up by this.
    pub fn look_up(&self, pair: Pair) -> Option<u8>
        ensures found { (m : Meaning Pair) → Shows I.Index.leads self.now m → Within pair → result ≡ label_of same_pair m.places pair }
        ensures below { IfSome result (λ l. l < 96) }
        ensures reached { (m : Meaning Pair) → Shows I.Index.leads self.now m → I.Index.reached self.now.index m.places pair result }
    {
        self.index.find(&self.pairs, pair)
    }
}

impl<I: Index> Told<Pair> for IndexedStore<I> {
    type Asked = Pair;

    ghost shows = { Shows I.Index.leads };

    ghost agrees = { λ s l. Agrees s.asked l };

    ghost proper = { λ s m h. stored_proper (I.Index.leads s.index) s.pairs s.asked m h };

    fn empty(&mut self) {
        self.index.empty();
        self.pairs = [None; PLACES];
        self.asked = 0;
    }

    fn set(&mut self, place: u8, value: Pair) -> Result<(), Fault> {
        let held = entry_at(&self.pairs, place as usize);
        let found = self.look_up(value);
        check_set(place, &[value.left, value.right], held, found)?;
        self.index.enter(value, place);
        put_at(&mut self.pairs, place as usize, Some(value));
        Ok(())
    }

    fn clear(&mut self, place: u8) -> Result<Pair, Fault> {
        let held = entry_at(&self.pairs, place as usize);
        let pair = check_clear(place, held)?;
        self.index.leave(pair, place);
        put_at(&mut self.pairs, place as usize, None);
        Ok(pair)
    }
}

impl<I: Index> Store for IndexedStore<I> {
    fn find(&mut self, left: u8, right: u8) -> Result<Option<u8>, Fault> {
        check_labels(&[left, right])?;
        let found = self.look_up(Pair { left, right });
        self.asked = self.asked.wrapping_add(1);
        Ok(found)
    }
}
