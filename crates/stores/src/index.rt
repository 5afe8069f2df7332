// How a store finds the place of a pair that it holds.
ghost use Rattle.std.specs.Prelude.{◌≡◌, ℕ, ◌<◌, List, replicate, IfSome, Some, None, Option, slice_index_or, slice_set};
ghost use Rattle.parts.specs.Meaning.{find as label_of};
ghost use Rattle.stores.specs.declared.pairs.Pair.{Pair};
ghost use Rattle.stores.specs.Pairs.{same_pair, Within};
ghost use Rattle.stores.specs.Places.{Placed, Free};

use crate::pairs::Pair;
use parts::marks::PLACES;

pub trait Index {
    // the index leads to each pair that these places hold
    ghost leads: { Self → List (Option Pair) → Type 0 };

    // how the index came to a label, or to none, among these places
    ghost reached: { Self → List (Option Pair) → Pair → Option ℕ → Type 0 };

    // It leads nowhere. An index is emptied and not made, since a maker of chains takes their key from the caller.
    fn empty(&mut self)
        ensures { leads self.new (replicate 96 None) };

    // A pair is put at a place.
    fn enter(&mut self, pair: Pair, place: u8)
        ensures { (places : List (Option Pair)) → Placed places → leads self.old places → Free places place pair → leads self.new (slice_set places place (Some pair)) };

    // A place that holds a pair is emptied.
    fn leave(&mut self, pair: Pair, place: u8)
        ensures { (places : List (Option Pair)) → Placed places → leads self.old places → slice_index_or places place None ≡ Some pair → leads self.new (slice_set places place None) };

    // The label of a pair: a plain number, as in the lists of labels, so its bound is said here.
    fn find(&self, pairs: &[Option<Pair>; PLACES], pair: Pair) -> Option<u8>
        ensures found { Placed pairs.now → leads self.now pairs.now → Within pair → result ≡ label_of same_pair pairs.now pair }
        ensures below { IfSome result (λ l. l < 96) }
        ensures reached { Placed pairs.now → leads self.now pairs.now → reached self.now pairs.now pair result };
}
