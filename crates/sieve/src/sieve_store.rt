// The sieve: a store over any store, which it spares the pairs that cannot be held (a counting Bloom filter before a store).
ghost use Rattle.std.specs.Prelude.{◌≡◌, ℕ, ◌%◌, ◌^◌, ◌<◌, ◌≤◌, true, false, List, [], ◌∷◌, ◌++◌, length, IfSome, is_err, IfOk, Some, Err, OnOk, slice_index};
ghost use Rattle.fields.specs.declared.faults.Fault.{Fault};
ghost use Rattle.fields.specs.Faults.{answer, unless};
ghost use Rattle.parts.specs.Asked.{Agrees};
ghost use Rattle.parts.specs.Meaning.{Meaning, nothing, find as label_of, asked_once, label_fault};
ghost use Rattle.stores.specs.declared.pairs.Pair.{Pair};
ghost use Rattle.stores.specs.Pairs.{pair, same_pair};
ghost use Rattle.sieve.specs.Counted.{count_of, passing, above, questions};
ghost use Rattle.sieve.specs.Sieved.{Shows};
ghost use Rattle.sieve.specs.Proper.{sieved_proper};

use crate::counters::{COUNTERS, Change, all_above, count_pair, touched};
use fields::faults::Fault;
use parts::checks::check_labels;
use parts::told::Told;
use stores::pairs::Pair;
use stores::store::Store;

#[derive(Drop)]
pub struct Sieve<S: Store> {
    below: S,
    counters: [u8; COUNTERS],
    asked: u32,
}

impl<S: Store> Sieve<S> {
    // A sieve over a store, which is emptied.
    pub fn over(store: S) -> Sieve<S>
        ensures held { Shows S.Told.shows result nothing }
        ensures asked { result.asked ≡ 0 }
        ensures lists { S.Told.agrees result.below [] }
    {
        let mut below = store;
        below.empty();
        Sieve {
            below,
            counters: [0; COUNTERS],
            asked: 0,
        }
    }

    // How often the sieve was asked since it was emptied, modulo 2^32; the store below counts for itself what it is asked.
    // Each part counts its own questions; a method of `Told` would leave open at a scan engine for which kind of value.
    pub fn asked_number(&self) -> u32
        ensures value { result ≡ self.now.asked }
        ensures counts { (m : Meaning Pair) → Shows S.Told.shows self.now m → result ≡ m.asked }
    {
        self.asked
    }

    // Whether every counter that a pair touches is above 0. A pair that is held always passes.
    pub fn passes(&self, left: u8, right: u8) -> Result<bool, Fault>
        ensures result { result ≡ answer (label_fault (left ∷ right ∷ [])) (above self.now.counters (pair left right)) }
        ensures counts { (m : Meaning Pair) → Shows S.Told.shows self.now m → result ≡ answer (label_fault (left ∷ right ∷ [])) (passing m.places (pair left right)) }
        ensures few { (m : Meaning Pair) → Shows S.Told.shows self.now m → (i : ℕ) → (slice_index self.now.counters i ≡ count_of i m.places) × (count_of i m.places ≤ 96) }
        ensures holds { (m : Meaning Pair) (l : ℕ) → Shows S.Told.shows self.now m → label_of same_pair m.places (pair left right) ≡ Some l → passing m.places (pair left right) ≡ true }
    {
        check_labels(&[left, right])?;
        let slots = touched(Pair { left, right });
        Ok(all_above(&self.counters, &slots))
    }

    // The label of a pair. The store below is asked exactly if the pair passes, and is else the same value as before.
    // It is `find` with more promises than the trait has words for.
    pub fn sift(&mut self, left: u8, right: u8) -> Result<Option<u8>, Fault>
        ensures result { (m : Meaning Pair) → Shows S.Told.shows self.old m → result ≡ answer (label_fault (left ∷ right ∷ [])) (label_of same_pair m.places (pair left right)) }
        ensures held { (m : Meaning Pair) → Shows S.Told.shows self.old m → Shows S.Told.shows self.new (unless (label_fault (left ∷ right ∷ [])) m (asked_once m)) }
        ensures asked { OnOk result ((l : List Pair) → Agrees self.old.asked l → Agrees self.new.asked (l ++ pair left right ∷ [])) }
        ensures refused { (f : Fault) → label_fault (left ∷ right ∷ []) ≡ Some f → result ≡ Err f }
        ensures kept { is_err result ≡ true → self.new ≡ self.old }
        ensures below { IfOk result (λ o. IfSome o (λ l. l < 96)) }
        ensures spared { above self.old.counters (pair left right) ≡ false → self.new.below ≡ self.old.below }
        ensures questioned { OnOk result ((l : List Pair) → S.Told.agrees self.old.below l → S.Told.agrees self.new.below (l ++ questions self.old.counters (pair left right))) }
        ensures counters { self.new.counters ≡ self.old.counters }
    {
        let found = if self.passes(left, right)? {
            self.below.find(left, right)?
        } else {
            None
        };
        self.asked = self.asked.wrapping_add(1);
        Ok(found)
    }
}

impl<S: Store> Told<Pair> for Sieve<S> {
    type Asked = Pair;

    ghost shows = { Shows S.Told.shows };

    ghost agrees = { λ s l. Agrees s.asked l };

    ghost proper = { λ s m h. sieved_proper S.Told.shows S.Told.proper s.below s.counters s.asked m h };

    fn empty(&mut self) {
        self.below.empty();
        self.counters = [0; COUNTERS];
        self.asked = 0;
    }

    fn set(&mut self, place: u8, value: Pair) -> Result<(), Fault> {
        self.below.set(place, value)?;
        let slots = touched(value);
        count_pair(&mut self.counters, &slots, Change::Up);
        Ok(())
    }

    fn clear(&mut self, place: u8) -> Result<Pair, Fault> {
        let pair = self.below.clear(place)?;
        let slots = touched(pair);
        count_pair(&mut self.counters, &slots, Change::Down);
        Ok(pair)
    }
}

impl<S: Store> Store for Sieve<S> {
    fn find(&mut self, left: u8, right: u8) -> Result<Option<u8>, Fault> {
        self.sift(left, right)
    }
}
